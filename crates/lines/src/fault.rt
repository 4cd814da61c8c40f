// A fault as it is printed.
ghost use Rattle.std.specs.Prelude.{Some};
ghost use Rattle.lines.specs.Lines.{fault_text};

use criteria::Code;
use std::fmt;

// A fault, and the number of the record that the reader added to it, if it did.
#[derive(Clone, Copy)]
pub struct FaultText {
    pub code: Code,
    pub at: Option<usize>,
}

impl fmt::Display for FaultText {
    ghost output = { λ f. Some (fault_text f.code f.at) };

    fn fmt<W: fmt::Write>(&self, f: &mut fmt::Formatter<W>) -> fmt::Result {
        let Code {
            layer,
            number,
            place,
        } = self.code;
        write!(f, "fault {} {number} {place}", char::from(layer))?;
        match self.at {
            Some(at) => write!(f, " at {at}"),
            None => Ok(()),
        }
    }
}
