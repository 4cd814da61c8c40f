// The line of a call.
ghost use Rattle.std.specs.Prelude.{◌≡◌, Some};
ghost use Rattle.bench.specs.Settings.{calling};
ghost use Rattle.records.specs.Encoding.{operation_letter};
ghost use Rattle.job_calls.specs.Lines.{call_line};

use morphology::Operation;
use std::fmt;

// The letter that asks for an operation.
fn letter(operation: Operation) -> char
    ensures { result ≡ operation_letter operation }
{
    match operation {
        Operation::Dilate => 'D',
        Operation::Erode => 'E',
        Operation::Open => 'O',
        Operation::Close => 'C',
    }
}

// What a call's line says: its operation and its size, the number of its answer, and the present level after it.
#[derive(Clone, Copy)]
pub(crate) struct CallLine {
    pub(crate) operation: Operation,
    pub(crate) size: u8,
    pub(crate) number: u8,
    pub(crate) level: i8,
}

impl fmt::Display for CallLine {
    ghost output = { λ c. Some (call_line (calling c.operation c.size) c.number c.level) };

    fn fmt<W: fmt::Write>(&self, f: &mut fmt::Formatter<W>) -> fmt::Result {
        let CallLine {
            operation,
            size,
            number,
            level,
        } = *self;
        writeln!(f, "{} {size} {number} {level}", letter(operation))
    }
}
