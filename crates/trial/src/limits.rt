// Reflectances within limits.
use crate::failure::Failure;
use criteria::{Criterion, Limits, MapFault, ReflectanceBits, Tolerance};
use std::io;

// 1.5, 1.75 and 0.5 as bits of a 32-bit float.
const ONE_AND_A_HALF: u32 = 0x3fc0_0000;

const ONE_AND_THREE_QUARTERS: u32 = 0x3fe0_0000;

const A_HALF: u32 = 0x3f00_0000;

fn print_near(rt: &impl Print, slope: &str, near: bool) -> io::Result<()> {
    if near {
        println!(rt; "limits 1.5 0 and 1.75 {slope}: near")
    } else {
        println!(rt; "limits 1.5 0 and 1.75 {slope}: not near")
    }
}

// With limits 0.25 and 0.
pub fn try_limits(rt: &impl Print) -> Result<(), Failure> {
    let limits = Limits::try_from(Tolerance::Limits(0.25, 0.0))?;
    let centre = ReflectanceBits {
        mean: ONE_AND_A_HALF,
        slope: 0,
    };
    let level = ReflectanceBits {
        mean: ONE_AND_THREE_QUARTERS,
        slope: 0,
    };
    let tilted = ReflectanceBits {
        mean: ONE_AND_THREE_QUARTERS,
        slope: A_HALF,
    };
    print_near(rt, "0", limits.near(centre, level))?;
    print_near(rt, "0.5", limits.near(centre, tilted))?;
    Ok(())
}
