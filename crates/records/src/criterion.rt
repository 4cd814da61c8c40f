// The criterion that an H asks for.
ghost use Rattle.std.specs.Prelude.{◌≡◌, [], ◌∷◌, IfOk};
ghost use Rattle.std.specs.Result.{result_err};
ghost use Rattle.std.proofs.Common.{rules, arith};
ghost use Rattle.maps.specs.Checks.{first_fault};
ghost use Rattle.records.specs.Reading.{tolerance_check, judged};
ghost use Rattle.records.specs.Criterion.{judgement_of};

use crate::records::{Head, Shape};
use criteria::{Criterion, MapFault, Step, Tone, Turn};

// One of the three criteria on bytes.
#[derive(Clone, Copy)]
pub enum ByteCriterion {
    Step(Step),
    Tone(Tone),
    Turn(Turn),
}

impl Criterion for ByteCriterion {
    type Value = u8;

    ghost judgement = { judgement_of };

    ghost itself = { Prim.search rules };

    fn admitted(&self, value: u8) -> bool {
        match self {
            ByteCriterion::Step(step) => step.admitted(value),
            ByteCriterion::Tone(tone) => tone.admitted(value),
            ByteCriterion::Turn(turn) => turn.admitted(value),
        }
    }

    fn near(&self, centre: u8, value: u8) -> bool {
        match self {
            ByteCriterion::Step(step) => step.near(centre, value),
            ByteCriterion::Tone(tone) => tone.near(centre, value),
            ByteCriterion::Turn(turn) => turn.near(centre, value),
        }
    }
}

impl Head {
    // The criterion of this H, unless its tolerance is refused.
    pub fn criterion(self) -> Result<ByteCriterion, MapFault>
        ensures judged { IfOk result (λ c. judgement_of c ≡ judged self) }
        ensures refused { result_err result ≡ first_fault (tolerance_check self ∷ []) }
    {
        let tolerance = self.shape.tolerance(self.limit);
        Ok(match self.shape {
            Shape::Step => ByteCriterion::Step(Step::try_from(tolerance)?),
            Shape::Tone => ByteCriterion::Tone(Tone::try_from(tolerance)?),
            Shape::Turn => ByteCriterion::Turn(Turn::try_from(tolerance)?),
        })
    }
}
