// Criteria: which values of a map are admitted, and which are near a centre value.
// The faults of the map layer live here, in the lowest crate of that layer.
#![tactic(auto)]

mod check;
mod criterion;
mod fault;
mod limits;
mod reflectance;
mod step;
mod theorems;
mod tolerance;
mod tone;
mod turn;

pub use criterion::Criterion;
pub use fault::{Code, Counted, Layer, MapFault, Part};
pub use reflectance::{Limits, Reflectance, ReflectanceBits};
pub use step::Step;
pub use theorems::examples_hold;
pub use tolerance::Tolerance;
pub use tone::Tone;
pub use turn::Turn;

#[cfg(test)]
mod tests {
    use super::*;
    use std::test::Fail;

    fn bits(mean: u32, slope: u32) -> ReflectanceBits {
        ReflectanceBits { mean, slope }
    }

    // Limits 0.25 and 0. The bits of 1.5 are 3fc00000, of 1.75 3fe00000, of 0.5 3f000000.
    #[test]
    fn reflectances_within_limits(rt: HostRuntime) -> Result<(), Fail> {
        let limits = Limits::try_from(Tolerance::Limits(0.25, 0.0))?;
        let centre = bits(0x3fc0_0000, 0);
        assert!(rt; limits.near(centre, bits(0x3fe0_0000, 0)));
        assert!(rt; !limits.near(centre, bits(0x3fe0_0000, 0x3f00_0000)));
        Ok(())
    }

    // A NaN and an infinity are not admitted, and near nothing.
    #[test]
    fn any_bits_are_answered(rt: HostRuntime) -> Result<(), Fail> {
        let limits = Limits::try_from(Tolerance::Limits(0.25, -0.0))?;
        let nan = bits(0x7fc0_0001, 0);
        let infinite = bits(0x7f80_0000, 0);
        assert!(rt; !limits.admitted(nan) && !limits.near(nan, nan));
        assert!(rt; !limits.admitted(infinite) && !limits.near(infinite, infinite));
        Ok(())
    }

    // No criterion takes another's tolerance, and limits are finite and not below zero.
    #[test]
    fn tolerances_are_matched(rt: HostRuntime) {
        assert!(rt;
            Step::try_from(Tolerance::Turn(5)).is_err()
                && Turn::try_from(Tolerance::Step(5)).is_err()
        );
        assert!(rt;
            Turn::try_from(Tolerance::Turn(90)).is_ok()
                && Turn::try_from(Tolerance::Turn(91)).is_err()
        );
        assert!(rt; Limits::try_from(Tolerance::Limits(-1.0, 0.0)).is_err());
        assert!(rt; Limits::try_from(Tolerance::Limits(0.0, 1.0 / 0.0)).is_err());
        assert!(rt; Limits::try_from(Tolerance::Limits(0.0 / 0.0, 0.0)).is_err());
    }
}
