// Theorems about the definitions that the contracts use.
ghost use Rattle.criteria.specs.Examples.{NearExamples};

// The worked examples of the criteria on bytes.
pub fn examples_hold()
    ensures { NearExamples }
{}
