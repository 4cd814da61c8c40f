// Theorems about the definitions that the contracts use: each stands on a function's contract, so that the check asks for its proof.
ghost use Rattle.std.specs.Prelude.{ℕ};
ghost use Rattle.scales.specs.Phases.{Marked};
ghost use Rattle.scales.specs.Examples.{PhaseExamples, ReliefExamples};

// Union, intersection and difference of phase sets mean what they say of each mark.
pub fn marks_hold()
    ensures { (a b k : ℕ) → Marked a b k }
{}

// The worked examples of phase sets and relief.
pub fn examples_hold()
    ensures phases { PhaseExamples }
    ensures relief { ReliefExamples }
{}
