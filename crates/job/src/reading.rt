// The reading of a whole job.
ghost use Rattle.std.specs.Prelude.{◌≡◌, ◌+◌, ◌^◌, ◌<◌, length, None, IfOk};
ghost use Rattle.maps.specs.Checks.{first_fault};
ghost use Rattle.records.specs.Records.{pixels};
ghost use Rattle.records.specs.Reading.{head_checks, judged};
ghost use Rattle.job.specs.Reading.{lay_answer, Filled, fresh};

use bench::BenchFault;
use maps::Map;
use records::{Cut, Head, Place, Reader, ReaderFault, Record, Stop, Tile};
use std::alloc::Global;

// Lays the map of a head that passed, under its criterion: all its values are admitted.
fn lay(head: Head, values: &[u8]) -> Result<(), BenchFault>
    requires passed { first_fault (head_checks head) ≡ None }
    requires count { length values.now ≡ pixels head }
    ensures { result ≡ lay_answer (judged head).admits values.now }
{
    let criterion = head.criterion()?;
    let mut map = Map::empty();
    head.lay(&mut map, values)?;
    maps::check_admitted(&criterion, &map)?;
    Ok(())
}

// A job as it is read: the tile so far, and how many calls.
#[derive(Drop)]
pub(crate) struct JobReader {
    reader: Reader,
    pub(crate) tile: Tile,
    pub(crate) calls: usize,
}

impl JobReader {
    ghost use Rattle.job.specs.Progress.{progress, Advances, Reads};

    pub(crate) fn new(heap: Global) -> JobReader
        ensures { progress result ≡ fresh }
    {
        JobReader {
            reader: Reader::new(),
            tile: Tile::new(heap),
            calls: 0,
        }
    }

    // Takes the next record; with the last pixel the map is laid.
    fn advance(&mut self, number: usize, bytes: &[u8; 8]) -> Result<(), Stop>
        requires room { self.old.calls + 1 < 2 ^ 64 }
        requires filled { Filled (progress self.old) }
        ensures { Advances number bytes.now (progress self.old) result (progress self.new) }
    {
        let taken = self.reader.take(number, bytes)?;
        self.tile.add(taken)?;
        match (taken, self.reader.place()) {
            (Record::Pixel(_, _), Place::Calls { head }) => {
                lay(head, &self.tile.map).map_err(|fault| ReaderFault::from((fault, number)))?;
            }
            (Record::Call(_, _), _) => self.calls += 1,
            _ => {}
        }
        Ok(())
    }

    // Reads a whole job.
    pub(crate) fn read(&mut self, job: &[u8]) -> Result<Head, Stop>
        requires { progress self.old ≡ fresh }
        ensures reads { Reads job.now result (progress self.new) }
        ensures passed { IfOk result (λ h. first_fault (head_checks h) ≡ None) }
        ensures rows { IfOk result (λ h. length self.new.tile.picture.items ≡ pixels h) }
    {
        let cut = Cut::of(job);
        for (number, bytes) in cut.records.iter().enumerate() {
            self.advance(number, bytes)?;
        }
        let head = self.reader.end(cut.records.len(), cut.left)?;
        Ok(head)
    }
}
