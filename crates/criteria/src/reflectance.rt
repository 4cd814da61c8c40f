// Reflectances, as measured and as they lie in a map, and the limits within which they are near.
ghost use Rattle.std.specs.Prelude.{◌≡◌, true};
ghost use Rattle.criteria.specs.Limits.{is_limit};

// A mean and a slope, as measured.
#[derive(Clone, Copy)]
pub struct Reflectance {
    pub mean: f32,
    pub slope: f32,
}

// A reflectance as it lies in a map: the bits of its two floats.
#[derive(Clone, Copy)]
pub struct ReflectanceBits {
    pub mean: u32,
    pub slope: u32,
}

// Reflectances whose means and slopes each differ by at most a limit are near.
#[derive(Clone, Copy)]
pub struct Limits {
    pub(crate) mean: f32,
    pub(crate) slope: f32,
    ghost mean_is_limit: { is_limit mean ≡ true },
    ghost slope_is_limit: { is_limit slope ≡ true },
}
