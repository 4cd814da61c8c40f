// Which tiles pass.
use crate::failure::Failure;
use criteria::Code;
use lines::FaultText;
use maps::tile_pixels;
use std::io;

fn try_tile(rt: &impl Print, width: usize, height: usize) -> io::Result<()> {
    match tile_pixels(width, height, 4) {
        Ok(pixels) => println!(rt; "tile {width} {height}: {pixels}"),
        Err(fault) => {
            let fault = FaultText {
                code: Code::from(fault),
                at: None,
            };
            println!(rt; "tile {width} {height}: {fault}")
        }
    }
}

pub fn try_tiles(rt: &impl Print) -> Result<(), Failure> {
    try_tile(rt, 64, 64)?;
    try_tile(rt, 255, 16)?;
    try_tile(rt, 64, 65)?;
    try_tile(rt, 256, 1)?;
    Ok(())
}
