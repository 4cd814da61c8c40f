// Neighbourhoods on a tile whose equal pixels share a corner alone.
use crate::failure::Failure;
use criteria::{MapFault, Step, Tolerance};
use maps::Map;
use neighbourhoods::{reach_symmetric, reach_weak};
use std::io;

fn print_sheet(
    rt: &impl Print,
    name: &str,
    joining: u8,
    pixel: usize,
    sheet: [u8; 4],
) -> io::Result<()> {
    let [a, b, c, d] = sheet;
    println!(rt; "{name} {joining} {pixel}: {a} {b} {c} {d}")
}

// The two neighbourhoods of a pixel.
fn try_pixel(
    rt: &impl Print,
    step: &Step,
    map: &Map<u8>,
    joining: u8,
    pixel: usize,
) -> Result<(), Failure> {
    let mut sheet = [0; 4];
    let mut marks = [0; 4];
    let mut queue = [0; 4];
    reach_weak(step, map, pixel, &mut sheet, &mut marks, &mut queue)?;
    print_sheet(rt, "weak", joining, pixel, sheet)?;
    reach_symmetric(step, map, pixel, &mut sheet, &mut marks, &mut queue)?;
    print_sheet(rt, "symmetric", joining, pixel, sheet)?;
    Ok(())
}

// On the map 0 50 50 0, two by two, with step 0.
pub fn try_sheets(rt: &impl Print, joining: u8) -> Result<(), Failure> {
    let step = Step::try_from(Tolerance::Step(0))?;
    let values = [0, 50, 50, 0];
    let mut map = Map::empty();
    map.make(2, 2, joining, &values)?;
    for pixel in 0..4 {
        try_pixel(rt, &step, &map, joining, pixel)?;
    }
    Ok(())
}
