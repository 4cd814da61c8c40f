// What can end a job.
ghost use Rattle.std.specs.Prelude.{◌≡◌, Some};
ghost use Rattle.lines.specs.Lines.{fault_text};
ghost use Rattle.records.specs.declared.fault.ReaderFault.TheVariants.{Bench};
ghost use Rattle.records.specs.Faults.{reader_code, record_of_fault};

use bench::BenchFault;
use criteria::{Code, Layer};
use lines::FaultText;
use std::fmt;

// A fault of the reader has the number of its record; one from below travels up whole, and the reader adds the number.
#[derive(Clone, Copy, Debug, PartialEq, Eq)]
pub enum ReaderFault {
    // 1 to 7 bytes remain
    Torn(usize),
    // a letter that is not listed
    Letter(usize),
    // a record or the end comes out of turn
    Order(usize),
    // a byte that must be 0 is not
    Filler(usize),
    // found by the bench layer, or below it
    Bench(BenchFault, usize),
}

// A fault from below, and the number of the record at which it was found.
impl From<(BenchFault, usize)> for ReaderFault {
    ghost from_gives = { λ p r. r ≡ Bench p.0 p.1 };

    fn from(fault: (BenchFault, usize)) -> ReaderFault {
        ReaderFault::Bench(fault.0, fault.1)
    }
}

impl From<ReaderFault> for Code {
    ghost from_gives = { λ f r. r ≡ reader_code f };

    fn from(fault: ReaderFault) -> Code {
        let (number, place) = match fault {
            ReaderFault::Torn(number) => (11, number),
            ReaderFault::Letter(number) => (12, number),
            ReaderFault::Order(number) => (13, number),
            ReaderFault::Filler(number) => (14, number),
            ReaderFault::Bench(fault, _) => return Code::from(fault),
        };
        Code {
            layer: Layer::Job,
            number,
            place,
        }
    }
}

impl ReaderFault {
    // The record number that was added to a fault from below.
    pub fn added_record(self) -> Option<usize>
        ensures { result ≡ record_of_fault self }
    {
        match self {
            ReaderFault::Bench(_, number) => Some(number),
            _ => None,
        }
    }
}

impl fmt::Display for ReaderFault {
    ghost output = { λ f. Some (fault_text (reader_code f) (record_of_fault f)) };

    fn fmt<W: fmt::Write>(&self, f: &mut fmt::Formatter<W>) -> fmt::Result {
        let fault = FaultText {
            code: Code::from(*self),
            at: self.added_record(),
        };
        write!(f, "{fault}")
    }
}
