// What ends the work on a job before its text is whole.
ghost use Rattle.std.specs.Prelude.{◌≡◌};
ghost use Rattle.bench.specs.declared.fault.BenchFault.TheVariants.{Map};
ghost use Rattle.records.specs.declared.fault.ReaderFault.TheVariants as reader;
ghost use Rattle.records.specs.declared.stop.Stop.TheVariants.{Fault, Memory};

use crate::fault::ReaderFault;
use bench::BenchFault;
use criteria::MapFault;
use std::alloc::AllocError;

// A fault of the job, or want of memory.
#[derive(Drop)]
pub enum Stop {
    Fault(ReaderFault),
    Memory(AllocError),
}

impl From<ReaderFault> for Stop {
    ghost from_gives = { λ f r. r ≡ Fault f };

    fn from(fault: ReaderFault) -> Stop {
        Stop::Fault(fault)
    }
}

// A tolerance comes with the head, which is record 0.
impl From<MapFault> for Stop {
    ghost from_gives = { λ f r. r ≡ Fault (reader.Bench (Map f) 0) };

    fn from(fault: MapFault) -> Stop {
        Stop::Fault(ReaderFault::from((BenchFault::Map(fault), 0)))
    }
}

impl From<AllocError> for Stop {
    ghost from_gives = { λ e r. r ≡ Memory e };

    fn from(error: AllocError) -> Stop {
        Stop::Memory(error)
    }
}
