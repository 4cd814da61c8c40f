// Tolerances, as they are handed to the making of a criterion.

#[derive(Clone, Copy, PartialEq, Debug)]
pub enum Tolerance {
    // the greatest difference of two bytes
    Step(u8),
    // the greatest logarithmic difference of two grey tones
    Tone(u8),
    // the greatest turn between two headings, in degrees
    Turn(u8),
    // the greatest difference of two means, and of two slopes
    Limits(f32, f32),
}
