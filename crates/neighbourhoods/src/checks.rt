// What floods and reach calls refuse.
ghost use Rattle.std.specs.Prelude.{◌≡◌, [], ◌∷◌};
ghost use Rattle.maps.specs.Checks.{first_fault, answered};
ghost use Rattle.neighbourhoods.specs.Floods.{pixel_check, scratch_checks, flood_fault};
ghost use Rattle.neighbourhoods.specs.Sheets.{reach_answer};

use crate::marks::capacity;
use criteria::{Counted, Criterion, MapFault, Part};
use maps::{Map, check_admitted};

// Refuses a number that no pixel of the map has.
pub(crate) fn check_pixel<V>(map: &Map<V>, pixel: usize) -> Result<(), MapFault>
    ensures { result ≡ answered (first_fault (pixel_check map.now pixel ∷ [])) tt }
{
    if pixel < map.pixels() {
        Ok(())
    } else {
        Err(MapFault::Pixel(pixel))
    }
}

// Refuses marks, or else a queue, that do not serve every pixel of the map.
pub(crate) fn check_scratch<V>(map: &Map<V>, marks: &[u8], queue: &[u32]) -> Result<(), MapFault>
    ensures { result ≡ answered (first_fault (scratch_checks map.now marks.now queue.now)) tt }
{
    if capacity(marks) < map.pixels() {
        return Err(MapFault::Scratch(Part::Marks));
    }
    if queue.len() < map.pixels() {
        return Err(MapFault::Scratch(Part::Queue));
    }
    Ok(())
}

// Refuses a flood from z that lacks something.
pub(crate) fn check_flood<V>(
    map: &Map<V>,
    z: usize,
    marks: &[u8],
    queue: &[u32],
) -> Result<(), MapFault>
    ensures { result ≡ answered (flood_fault map.now z marks.now queue.now) tt }
{
    check_pixel(map, z)?;
    check_scratch(map, marks, queue)
}

// Refuses a reach call that lacks something, or whose map has a value that is not admitted.
pub(crate) fn check_reach<C: Criterion>(
    criterion: &C,
    map: &Map<C::Value>,
    pixel: usize,
    sheet: &[u8],
    marks: &[u8],
    queue: &[u32],
) -> Result<(), MapFault>
    ensures { result ≡ reach_answer (C.judgement criterion.now) map.now pixel sheet.now marks.now queue.now }
{
    check_pixel(map, pixel)?;
    if sheet.len() != map.pixels() {
        return Err(MapFault::Misfit(Counted::Sheet));
    }
    check_scratch(map, marks, queue)?;
    check_admitted(criterion, map)
}
