// The admission check of a map.
ghost use Rattle.std.specs.Prelude.{◌≡◌};
ghost use Rattle.maps.specs.Admission.{FirstNot, inadmissible, admission_answer};

use crate::map::Map;
use criteria::{Criterion, MapFault};

// The first pixel whose value is not admitted, by search from the first pixel on.
fn search<C: Criterion>(criterion: &C, map: &Map<C::Value>) -> Option<usize>
    ensures { result ≡ inadmissible (C.judgement criterion.now) map.now }
{
    map.values
        .iter()
        .position(|value| !criterion.admitted(*value))
}

// The first pixel whose value is not admitted, or that there is none.
#[tactic(auto, using(crate::proofs::Firsts::first_not_at))]
pub fn first_inadmissible<C: Criterion>(criterion: &C, map: &Map<C::Value>) -> Option<usize>
    ensures value { result ≡ inadmissible (C.judgement criterion.now) map.now }
    ensures first { FirstNot (C.judgement criterion.now).admits map.now.values.now result }
{
    search(criterion, map)
}

// Refuses a map with a value that is not admitted.
pub fn check_admitted<C: Criterion>(criterion: &C, map: &Map<C::Value>) -> Result<(), MapFault>
    ensures { result ≡ admission_answer (C.judgement criterion.now) map.now }
{
    match first_inadmissible(criterion, map) {
        Some(pixel) => Err(MapFault::Inadmissible(pixel)),
        None => Ok(()),
    }
}
