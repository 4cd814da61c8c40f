// The records of a job.
ghost use Rattle.std.specs.Prelude.{◌≡◌};

use morphology::Operation;

// The criterion that an H asks for.
#[derive(Clone, Copy, Debug, PartialEq, Eq)]
pub enum Shape {
    Step,
    Tone,
    Turn,
}

// What the letters of a record say that it is.
#[derive(Clone, Copy, Debug, PartialEq, Eq)]
pub(crate) enum Kind {
    Head(Shape),
    Pixel,
    Call(Operation),
}

// What an H says.
#[derive(Clone, Copy, Debug, PartialEq, Eq)]
pub struct Head {
    pub width: u8,
    pub height: u8,
    pub joining: u8,
    pub shape: Shape,
    pub limit: u8,
}

// A sound record: an H; a P with its map byte and its grey byte; a C with its operation and its size.
#[derive(Clone, Copy, Debug, PartialEq, Eq)]
pub enum Record {
    Head(Head),
    Pixel(u8, u8),
    Call(Operation, u8),
}
