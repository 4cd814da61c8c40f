// Prints what the proved calls answer on the worked examples that are tried and not proved.
#![tactic(auto)]

mod examples;
mod failure;
mod levels;
mod limits;
mod sheets;
mod tiles;

use examples::examples_hold;
use failure::Failure;
use levels::try_levels;
use limits::try_limits;
use sheets::try_sheets;
use std::alloc::AllocError;
use std::io;
use tiles::try_tiles;

// The worked job: 5 wide, 1 high, joining 4, step 10; map 0 10 20 30 100; grey 9 2 2 2 4; D 1, E 2, O 0, C 1.
static WORKED: [u8; 80] = [
    b'H', 5, 1, 4, b'S', 10, 0, 0, b'P', 0, 0, 0, 9, 0, 0, 0, b'P', 1, 0, 10, 2, 0, 0, 0, b'P', 2,
    0, 20, 2, 0, 0, 0, b'P', 3, 0, 30, 2, 0, 0, 0, b'P', 4, 0, 100, 4, 0, 0, 0, b'C', b'D', 1, 0,
    0, 0, 0, 0, b'C', b'E', 2, 0, 0, 0, 0, 0, b'C', b'O', 0, 0, 0, 0, 0, 0, b'C', b'C', 1, 0, 0, 0,
    0, 0,
];

fn main(rt: HostRuntime) -> Result<(), Failure> {
    examples_hold();
    let text = job_calls::report(rt.alloc(), &WORKED)?;
    print!(rt; "{text}")?;
    try_sheets(&rt, 4)?;
    try_sheets(&rt, 8)?;
    try_tiles(&rt)?;
    try_levels(&rt)?;
    try_limits(&rt)
}
