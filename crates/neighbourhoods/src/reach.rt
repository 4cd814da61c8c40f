// The two reach calls: a neighbourhood shown on a sheet of bytes.
ghost use Rattle.std.specs.Prelude.{◌≡◌, ◌<◌, length};
ghost use Rattle.maps.specs.Checks.{left_by};
ghost use Rattle.maps.specs.Windows.{pixels_of};
ghost use Rattle.maps.specs.Grounds.{ground};
ghost use Rattle.neighbourhoods.specs.Zeros.{zeros};
ghost use Rattle.neighbourhoods.specs.Floods.{Serving};
ghost use Rattle.neighbourhoods.specs.Sheets.{reach_answer, weak_sheet, symmetric_sheet};

use crate::checks::check_reach;
use crate::floods::flood_within;
use crate::lent::Lent;
use crate::marks::clear_all;
use crate::sheets::{draw, lists};
use criteria::{Criterion, MapFault};
use maps::Map;

// Shows the weak neighbourhood of the pixel on the sheet.
fn show_weak<C: Criterion>(
    criterion: &C,
    map: &Map<C::Value>,
    pixel: usize,
    sheet: &mut [u8],
    marks: &mut [u8],
    queue: &mut [u32],
)
    requires pixel { pixel < pixels_of map.now }
    requires sheet { length sheet.old ≡ pixels_of map.now }
    requires room { Serving map.now marks.old queue.old }
    ensures { sheet.new ≡ weak_sheet (ground (C.judgement criterion.now) map.now) pixel }
{
    clear_all(marks);
    let count = flood_within(criterion, map, pixel, marks, queue);
    let pixels = &queue[..count];
    sheet.fill(0);
    draw(sheet, pixels);
}

// Shows the symmetric neighbourhood of the pixel on the sheet: floods from every pixel, and draws the floods that hold it.
fn show_symmetric<C: Criterion>(
    criterion: &C,
    map: &Map<C::Value>,
    pixel: usize,
    sheet: &mut [u8],
    marks: &mut [u8],
    queue: &mut [u32],
)
    requires pixel { pixel < pixels_of map.now }
    requires sheet { length sheet.old ≡ pixels_of map.now }
    requires room { Serving map.now marks.old queue.old }
    ensures { sheet.new ≡ symmetric_sheet (ground (C.judgement criterion.now) map.now) pixel }
{
    clear_all(marks);
    sheet.fill(0);
    for z in 0..map.pixels() {
        let count = flood_within(criterion, map, z, marks, queue);
        let pixels = &queue[..count];
        if lists(pixels, pixel) {
            draw(sheet, pixels);
        }
    }
}

// Writes 1 for each pixel of the weak neighbourhood of the given one into the sheet, and 0 for the others.
pub fn reach_weak<C: Criterion>(
    criterion: &C,
    map: &Map<C::Value>,
    pixel: usize,
    sheet: &mut [u8],
    marks: &mut [u8],
    queue: &mut [u32],
) -> Result<(), MapFault>
    ensures answer { result ≡ reach_answer (C.judgement criterion.now) map.now pixel sheet.old marks.old queue.old }
    ensures sheet_after { sheet.new ≡ left_by result (weak_sheet (ground (C.judgement criterion.now) map.now) pixel) sheet.old }
    ensures marks_cleared { marks.new ≡ zeros (length marks.old) }
    ensures queue_cleared { queue.new ≡ zeros (length queue.old) }
{
    let marks = Lent(marks, 0);
    let queue = Lent(queue, 0);
    check_reach(criterion, map, pixel, sheet, marks.0, queue.0)?;
    show_weak(criterion, map, pixel, sheet, marks.0, queue.0);
    Ok(())
}

// Writes 1 for each pixel of the symmetric neighbourhood of the given one into the sheet, and 0 for the others.
pub fn reach_symmetric<C: Criterion>(
    criterion: &C,
    map: &Map<C::Value>,
    pixel: usize,
    sheet: &mut [u8],
    marks: &mut [u8],
    queue: &mut [u32],
) -> Result<(), MapFault>
    ensures answer { result ≡ reach_answer (C.judgement criterion.now) map.now pixel sheet.old marks.old queue.old }
    ensures sheet_after { sheet.new ≡ left_by result (symmetric_sheet (ground (C.judgement criterion.now) map.now) pixel) sheet.old }
    ensures marks_cleared { marks.new ≡ zeros (length marks.old) }
    ensures queue_cleared { queue.new ≡ zeros (length queue.old) }
{
    let marks = Lent(marks, 0);
    let queue = Lent(queue, 0);
    check_reach(criterion, map, pixel, sheet, marks.0, queue.0)?;
    show_symmetric(criterion, map, pixel, sheet, marks.0, queue.0);
    Ok(())
}
