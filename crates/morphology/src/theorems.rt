// Theorems about the definitions that contracts use: each stands on a function's contract, so that the check asks for its proof.
ghost use Rattle.std.specs.Prelude.{ℕ, List};
ghost use Rattle.morphology.specs.Neighbourhoods.{Ground};
ghost use Rattle.morphology.specs.Pictures.{Under, dilation, erosion};
ghost use Rattle.morphology.specs.Calls.{Call};
ghost use Rattle.morphology.specs.Levels.{at_zero, levels_after};
ghost use Rattle.morphology.specs.Theorems.{LawsOfTile, LawsOfNeighbourhoods, LawsOfOperators, LawsOfRuns, LawsOfOpenings, LawsOfLevels};

use scales::Scale;

// Pixel number = row × width + column, and which pixels are joined.
pub fn tile_holds()
    ensures { (width joining : ℕ) → LawsOfTile width joining }
{}

// The computed neighbourhoods are those that the relations say.
pub fn neighbourhoods_hold()
    ensures { (g : Ground) → LawsOfNeighbourhoods g }
{}

// Dilation is the join and erosion the meet over the symmetric neighbourhood, and the two are adjoint.
pub fn operators_hold<S: Scale>()
    ensures { (g : Ground) → LawsOfOperators S.grading g }
{}

// What any list of calls does to a picture.
pub fn runs_hold<S: Scale>()
    ensures bounds { (g : Ground) → LawsOfRuns (Under S.grading) (dilation S.grading g) (erosion S.grading g) }
    ensures openings { (g : Ground) → LawsOfOpenings (dilation S.grading g) (erosion S.grading g) }
{}

// What the three levels are after any list of calls from level 0.
pub fn levels_hold()
    ensures { (calls : List Call) → LawsOfLevels calls (levels_after calls at_zero) }
{}
