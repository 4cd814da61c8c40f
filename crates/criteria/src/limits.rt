// How reflectances are judged.
ghost use Rattle.std.specs.Prelude.{◌≡◌, from_bits};
ghost use Rattle.criteria.specs.Limits.{is_limit};
ghost use Rattle.criteria.specs.Floats.{read_back, both_finite, by_limits};
ghost use Rattle.criteria.specs.Tolerances.{limits_of, MadeWith};
ghost use Rattle.std.proofs.lemmas.Bool.{and_parts, and_from};
ghost use Rattle.std.specs.Float.{float_is_finite, binary32};
ghost use Rattle.criteria.specs.NearItself.{float_near_itself};

use crate::criterion::Criterion;
use crate::fault::MapFault;
use crate::reflectance::{Limits, Reflectance, ReflectanceBits};
use crate::tolerance::Tolerance;
use std::num;

// May the float be a limit: is it finite and not below zero?
fn may_limit(x: f32) -> bool
    ensures { result ≡ is_limit x }
{
    x.is_finite() && x >= 0.0
}

impl TryFrom<Tolerance> for Limits {
    type Error = MapFault;

    ghost try_from_gives = { λ t r. MadeWith (λ c. (c.mean, c.slope)) (limits_of t) r };

    fn try_from(tolerance: Tolerance) -> Result<Limits, MapFault> {
        match tolerance {
            Tolerance::Limits(mean, slope) if may_limit(mean) && may_limit(slope) => Ok(Limits {
                mean,
                slope,
            }),
            _ => Err(MapFault::Tolerance),
        }
    }
}

// The floats that the bits stand for. Any bits are read: a NaN's give a NaN.
impl From<ReflectanceBits> for Reflectance {
    ghost from_gives = { λ b r. r ≡ read_back b };

    fn from(bits: ReflectanceBits) -> Reflectance {
        Reflectance {
            mean: num::f32_from_bits_with_nan(bits.mean),
            slope: num::f32_from_bits_with_nan(bits.slope),
        }
    }
}

impl Criterion for Limits {
    type Value = ReflectanceBits;

    ghost judgement = { λ c. by_limits c.mean c.slope };

    ghost itself = { λ c v h.
        let m = from_bits binary32 v.mean in
        let s = from_bits binary32 v.slope in
        let f = and_parts (float_is_finite m) (float_is_finite s) h in
        and_from _ _ (float_near_itself c.mean m c.mean_is_limit f.0) (float_near_itself c.slope s c.slope_is_limit f.1) };

    fn admitted(&self, value: ReflectanceBits) -> bool {
        let value = Reflectance::from(value);
        value.mean.is_finite() && value.slope.is_finite()
    }

    fn near(&self, centre: ReflectanceBits, value: ReflectanceBits) -> bool {
        let centre = Reflectance::from(centre);
        let value = Reflectance::from(value);
        (centre.mean - value.mean).abs() <= self.mean
            && (centre.slope - value.slope).abs() <= self.slope
    }
}
