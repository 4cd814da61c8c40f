// The checks of seat and of a filter call.
ghost use Rattle.std.specs.Prelude.{◌≡◌, ◌<◌, ◌≤◌, [], ◌∷◌, pos, negsuc, ◌≤ℤ◌, None, OnOk};
ghost use Rattle.maps.specs.Checks.{first_fault, answered};
ghost use Rattle.maps.specs.Admission.{admission_check, inadmissible};
ghost use Rattle.maps.specs.Windows.{pixels_of};
ghost use Rattle.bench.specs.Checks.{from_map, matches, seat_checks, room_checks, handed_checks, size_check, level_check, book_check};

use crate::fault::{BenchFault, Misfit};
use criteria::{Criterion, Part};
use maps::{Map, Tile, check_admitted};
use operators::Room;

// Whether the map has a pixel, and this width, height and joining.
fn fits<V>(map: &Map<V>, tile: Tile) -> bool
    ensures { result ≡ matches map.now tile }
{
    map.pixels() > 0 && map.tile() == tile
}

// Refuses a map with a value that is not admitted.
fn check_admission<C: Criterion>(criterion: &C, map: &Map<C::Value>) -> Result<(), BenchFault>
    ensures admitted { OnOk result (inadmissible (C.judgement criterion.now) map.now ≡ None) }
    ensures answer { result ≡ answered
        (first_fault (from_map (admission_check (C.judgement criterion.now) map.now) ∷ [])) tt }
{
    check_admitted(criterion, map)?;
    Ok(())
}

// The checks of seat, of a picture of this many values.
pub(crate) fn check_seat<C: Criterion>(
    map: &Map<C::Value>,
    criterion: &C,
    count: usize,
) -> Result<(), BenchFault>
    ensures filled { OnOk result (0 < pixels_of map.now) }
    ensures picture { OnOk result (count ≡ pixels_of map.now) }
    ensures admitted { OnOk result (inadmissible (C.judgement criterion.now) map.now ≡ None) }
    ensures answer { result ≡ answered (first_fault (seat_checks (C.judgement criterion.now) map.now count)) tt }
{
    if map.pixels() == 0 {
        return Err(BenchFault::Misfit(Misfit::Map));
    }
    if count != map.pixels() {
        return Err(BenchFault::Misfit(Misfit::Picture));
    }
    check_admission(criterion, map)?;
    Ok(())
}

// Refuses a scratch of which a part has not an entry for each pixel, and a map with a value that is not admitted.
fn check_room<C: Criterion>(
    map: &Map<C::Value>,
    criterion: &C,
    room: Room,
) -> Result<(), BenchFault>
    ensures answer { result ≡ answered (first_fault (room_checks (C.judgement criterion.now) map.now room)) tt }
    ensures marks { OnOk result (pixels_of map.now ≤ room.marks) }
    ensures queue { OnOk result (pixels_of map.now ≤ room.queue) }
    ensures spare { OnOk result (pixels_of map.now ≤ room.spare) }
{
    let pixels = map.pixels();
    if room.marks < pixels {
        return Err(BenchFault::Scratch(Part::Marks));
    }
    if room.queue < pixels {
        return Err(BenchFault::Scratch(Part::Queue));
    }
    if room.spare < pixels {
        return Err(BenchFault::Scratch(Part::Spare));
    }
    check_admission(criterion, map)
}

// The checks of what a filter call on a bench of this tile is handed, with a picture of this many values.
pub(crate) fn check_handed<C: Criterion>(
    map: &Map<C::Value>,
    criterion: &C,
    tile: Tile,
    count: usize,
    room: Room,
) -> Result<(), BenchFault>
    ensures answer { result ≡ answered
        (first_fault (handed_checks (C.judgement criterion.now) map.now tile count room)) tt }
    ensures picture { OnOk result (count ≡ pixels_of map.now) }
    ensures marks { OnOk result (pixels_of map.now ≤ room.marks) }
    ensures queue { OnOk result (pixels_of map.now ≤ room.queue) }
    ensures spare { OnOk result (pixels_of map.now ≤ room.spare) }
{
    if !fits(map, tile) {
        return Err(BenchFault::Misfit(Misfit::Map));
    }
    if count != map.pixels() {
        return Err(BenchFault::Misfit(Misfit::Picture));
    }
    check_room(map, criterion, room)
}

// Refuses a size that is not 1 to 16.
pub(crate) fn check_size(size: u8) -> Result<(), BenchFault>
    ensures answer { result ≡ answered (first_fault (size_check size ∷ [])) tt }
    ensures small { OnOk result (size ≤ 16) }
{
    if !(1..=16).contains(&size) {
        return Err(BenchFault::Size(size));
    }
    Ok(())
}

// Refuses a level outside −64 to 64.
pub(crate) fn check_level(level: i8) -> Result<(), BenchFault>
    ensures answer { result ≡ answered (first_fault (level_check level ∷ [])) tt }
    ensures low { OnOk result (negsuc 63 ≤ℤ level) }
    ensures high { OnOk result (level ≤ℤ pos 64) }
{
    let far = level.unsigned_abs().saturating_sub(64);
    if far > 0 {
        return Err(BenchFault::Level(far));
    }
    Ok(())
}

// Refuses one more call after this many.
pub(crate) fn check_book(count: u16) -> Result<(), BenchFault>
    ensures answer { result ≡ answered (first_fault (book_check count ∷ [])) tt }
    ensures room { OnOk result (count < 60000) }
{
    if count >= 60_000 {
        return Err(BenchFault::Book);
    }
    Ok(())
}
