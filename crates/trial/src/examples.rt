// The worked examples that are proved, as one theorem about the definitions that the contracts use.
ghost use Rattle.trial.specs.Worked.{WorkedExamples};

pub fn examples_hold()
    ensures { WorkedExamples }
{}
