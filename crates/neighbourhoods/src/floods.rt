// The flood: it finds the weak neighbourhood of a pixel.
ghost use Rattle.std.specs.Prelude.{◌≡◌, ℕ, ◌^◌, ◌<◌, ◌≤◌, true, length, slice_index};
ghost use Rattle.std.specs.Result.{result_err};
ghost use Rattle.maps.specs.Windows.{pixels_of};
ghost use Rattle.maps.specs.Grounds.{ground};
ghost use Rattle.neighbourhoods.specs.Marks.{served, free};
ghost use Rattle.neighbourhoods.specs.Finds.{finds, visited, expanded, Room, unmark_all};
ghost use Rattle.neighbourhoods.specs.Floods.{flood_fault, Serving, Flooded, SpreadOut, QueueAfter};

use crate::checks::check_flood;
use crate::marks::{clear, is_free, put};
use crate::place::Place;
use crate::steps::steps;
use crate::values::value_at;
use criteria::{Criterion, MapFault};
use maps::Map;

// Visits a pixel: marks and queues it, if it is free and its value is near the centre. Answers how many pixels are found now.
fn visit<C: Criterion>(
    criterion: &C,
    centre: C::Value,
    value: C::Value,
    pixel: usize,
    marks: &mut [u8],
    queue: &mut [u32],
    found: usize,
) -> usize
    requires pixel { (pixel < served (length marks.old)) × (pixel < 2 ^ 32) }
    requires room { free marks.old pixel ≡ true → found < length queue.old }
    ensures { finds marks.new queue.new result ≡ visited ((C.judgement criterion.now).near centre value) pixel (finds marks.old queue.old found) }
{
    if is_free(marks, pixel) && criterion.near(centre, value) {
        put(marks, pixel);
        queue[found] = pixel as u32;
        found + 1
    } else {
        found
    }
}

// Visits the neighbours of a pixel.
fn expand<C: Criterion>(
    criterion: &C,
    map: &Map<C::Value>,
    centre: C::Value,
    pixel: usize,
    marks: &mut [u8],
    queue: &mut [u32],
    found: usize,
) -> usize
    requires pixel { pixel < pixels_of map.now }
    requires room { Room (pixels_of map.now) (finds marks.old queue.old found) }
    ensures { finds marks.new queue.new result ≡ expanded (C.judgement criterion.now) map.now centre pixel (finds marks.old queue.old found) }
{
    let place = Place::of(pixel, map);
    let mut count = found;
    for step in steps(map) {
        if let Some(next) = place.after(*step, map) {
            let value = value_at(map, next);
            count = visit(criterion, centre, value, next, marks, queue, count);
        }
    }
    count
}

// Frees the listed pixels.
fn unmark(marks: &mut [u8], pixels: &[u32])
    requires { (i : ℕ) → i < length pixels.now → slice_index pixels.now i < served (length marks.old) }
    ensures { marks.new ≡ unmark_all marks.old pixels.now }
{
    for pixel in pixels {
        clear(marks, *pixel as usize);
    }
}

// Finds the weak neighbourhood of z, and leaves it marked. Answers how many pixels it has.
fn spread<C: Criterion>(
    criterion: &C,
    map: &Map<C::Value>,
    z: usize,
    marks: &mut [u8],
    queue: &mut [u32],
) -> usize
    requires pixel { z < pixels_of map.now }
    requires room { Serving map.now marks.old queue.old }
    ensures { SpreadOut (ground (C.judgement criterion.now) map.now) z marks.old queue.old (finds marks.new queue.new result) }
{
    let centre = value_at(map, z);
    let mut found = visit(criterion, centre, centre, z, marks, queue, 0);
    let mut done = 0;
    while done < found {
        let pixel = queue[done] as usize;
        found = expand(criterion, map, centre, pixel, marks, queue, found);
        done += 1;
    }
    found
}

// The flood, where all that it needs is there.
pub(crate) fn flood_within<C: Criterion>(
    criterion: &C,
    map: &Map<C::Value>,
    z: usize,
    marks: &mut [u8],
    queue: &mut [u32],
) -> usize
    requires pixel { z < pixels_of map.now }
    requires room { Serving map.now marks.old queue.old }
    ensures marks_kept { marks.new ≡ marks.old }
    ensures flooded { Flooded (ground (C.judgement criterion.now) map.now) z marks.old queue.old queue.new result }
{
    let found = spread(criterion, map, z, marks, queue);
    unmark(marks, &queue[..found]);
    found
}

// Lists the weak neighbourhood of z in the first entries of the queue, and answers how many pixels it has.
// Marks that are set before the call stand for walls; the marks are left as they were.
pub fn flood<C: Criterion>(
    criterion: &C,
    map: &Map<C::Value>,
    z: usize,
    marks: &mut [u8],
    queue: &mut [u32],
) -> Result<usize, MapFault>
    ensures answer { result_err result ≡ flood_fault map.now z marks.old queue.old }
    ensures marks_kept { marks.new ≡ marks.old }
    ensures queue_after { QueueAfter (ground (C.judgement criterion.now) map.now) z marks.old queue.old queue.new result }
{
    check_flood(map, z, marks, queue)?;
    Ok(flood_within(criterion, map, z, marks, queue))
}
