// Theorems about the definitions that the contracts use.
ghost use Rattle.std.specs.Prelude.{ℕ, ◌*◌, ◌<◌};
ghost use Rattle.neighbourhoods.specs.Steps.{LawsOfSteps};
ghost use Rattle.neighbourhoods.specs.Examples.{ReachExamples, FilterExamples};

// The finder of neighbours leads to each joined pixel once, and to no other.
pub fn steps_hold()
    ensures { (width height joining p : ℕ) → p < width * height → LawsOfSteps width height joining p }
{}

// The worked examples.
pub fn examples_hold()
    ensures reach { ReachExamples }
    ensures filters { FilterExamples }
{}
