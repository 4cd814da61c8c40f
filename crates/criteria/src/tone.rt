// The tone criterion.
ghost use Rattle.criteria.specs.Bytes.{by_tone};
ghost use Rattle.criteria.specs.Tolerances.{tone_of, MadeWith};
ghost use Rattle.std.proofs.Common.{rules};

use crate::criterion::Criterion;
use crate::fault::MapFault;
use crate::tolerance::Tolerance;

// Grey tones whose logarithmic difference is at most a limit are near.
#[derive(Clone, Copy, PartialEq, Eq, Debug)]
pub struct Tone {
    limit: u8,
}

impl TryFrom<Tolerance> for Tone {
    type Error = MapFault;

    ghost try_from_gives = { λ t r. MadeWith (λ c. c.limit) (tone_of t) r };

    fn try_from(tolerance: Tolerance) -> Result<Tone, MapFault> {
        match tolerance {
            Tolerance::Tone(limit) => Ok(Tone { limit }),
            _ => Err(MapFault::Tolerance),
        }
    }
}

impl Criterion for Tone {
    type Value = u8;

    ghost judgement = { λ c. by_tone c.limit };

    ghost itself = { Prim.search rules };

    fn admitted(&self, _value: u8) -> bool {
        true
    }

    // The logarithmic difference, with its division taken to the other side.
    fn near(&self, centre: u8, value: u8) -> bool {
        let greater = u32::from(centre.max(value));
        let lesser = u32::from(centre.min(value));
        256 * (greater - lesser) <= (self.limit as u32) * (256 - lesser)
    }
}
