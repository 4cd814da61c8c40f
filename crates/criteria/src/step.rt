// The step criterion.
ghost use Rattle.criteria.specs.Bytes.{by_step};
ghost use Rattle.criteria.specs.Tolerances.{step_of, MadeWith};
ghost use Rattle.std.proofs.Common.{rules};

use crate::criterion::Criterion;
use crate::fault::MapFault;
use crate::tolerance::Tolerance;

// Bytes that differ by at most a limit are near.
#[derive(Clone, Copy, PartialEq, Eq, Debug)]
pub struct Step {
    limit: u8,
}

impl TryFrom<Tolerance> for Step {
    type Error = MapFault;

    ghost try_from_gives = { λ t r. MadeWith (λ c. c.limit) (step_of t) r };

    fn try_from(tolerance: Tolerance) -> Result<Step, MapFault> {
        match tolerance {
            Tolerance::Step(limit) => Ok(Step { limit }),
            _ => Err(MapFault::Tolerance),
        }
    }
}

impl Criterion for Step {
    type Value = u8;

    ghost judgement = { λ c. by_step c.limit };

    ghost itself = { Prim.search rules };

    fn admitted(&self, _value: u8) -> bool {
        true
    }

    fn near(&self, centre: u8, value: u8) -> bool {
        centre.abs_diff(value) <= self.limit
    }
}
