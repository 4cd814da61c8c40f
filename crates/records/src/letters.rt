// What the letters of a record stand for.
ghost use Rattle.std.specs.Prelude.{◌≡◌};
ghost use Rattle.records.specs.Records.{shape_of, operation_of, kind_of, tolerance_of};

use crate::records::{Kind, Shape};
use criteria::Tolerance;
use morphology::Operation;

impl Shape {
    pub(crate) fn from_letter(letter: u8) -> Option<Shape>
        ensures { result ≡ shape_of letter }
    {
        match letter {
            b'S' => Some(Shape::Step),
            b'T' => Some(Shape::Tone),
            b'R' => Some(Shape::Turn),
            _ => None,
        }
    }

    // The tolerance of this shape.
    pub fn tolerance(self, limit: u8) -> Tolerance
        ensures { result ≡ tolerance_of self limit }
    {
        match self {
            Shape::Step => Tolerance::Step(limit),
            Shape::Tone => Tolerance::Tone(limit),
            Shape::Turn => Tolerance::Turn(limit),
        }
    }
}

// The operation that a letter asks for.
fn operation(letter: u8) -> Option<Operation>
    ensures { result ≡ operation_of letter }
{
    match letter {
        b'D' => Some(Operation::Dilate),
        b'E' => Some(Operation::Erode),
        b'O' => Some(Operation::Open),
        b'C' => Some(Operation::Close),
        _ => None,
    }
}

impl Kind {
    pub(crate) fn from_bytes(bytes: &[u8; 8]) -> Option<Kind>
        ensures { result ≡ kind_of bytes.now }
    {
        match bytes[0] {
            b'H' => Some(Kind::Head(Shape::from_letter(bytes[4])?)),
            b'P' => Some(Kind::Pixel),
            b'C' => Some(Kind::Call(operation(bytes[1])?)),
            _ => None,
        }
    }
}
