// The turn criterion.
ghost use Rattle.std.specs.Prelude.{◌≤◌};
ghost use Rattle.criteria.specs.Bytes.{by_turn};
ghost use Rattle.criteria.specs.Tolerances.{turn_of, MadeWith};
ghost use Rattle.std.proofs.Common.{rules};

use crate::criterion::Criterion;
use crate::fault::MapFault;
use crate::tolerance::Tolerance;

// Headings in whole degrees that a turn of at most a limit brings together are near.
#[derive(Clone, Copy, PartialEq, Eq, Debug)]
pub struct Turn {
    limit: u8,
    ghost at_most_90: { limit ≤ 90 },
}

impl TryFrom<Tolerance> for Turn {
    type Error = MapFault;

    ghost try_from_gives = { λ t r. MadeWith (λ c. c.limit) (turn_of t) r };

    fn try_from(tolerance: Tolerance) -> Result<Turn, MapFault> {
        match tolerance {
            Tolerance::Turn(limit) if limit <= 90 => Ok(Turn { limit }),
            _ => Err(MapFault::Tolerance),
        }
    }
}

impl Criterion for Turn {
    type Value = u8;

    ghost judgement = { λ c. by_turn c.limit };

    ghost itself = { Prim.search rules };

    fn admitted(&self, value: u8) -> bool {
        value < 180
    }

    // Headings are axes: 180 degrees apart is the same heading.
    fn near(&self, centre: u8, value: u8) -> bool {
        let apart = i16::from(centre.abs_diff(value));
        apart.min(180 - apart) <= i16::from(self.limit)
    }
}
