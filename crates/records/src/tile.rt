// The tile of a job as it is read.
ghost use Rattle.std.specs.Prelude.{◌≡◌, [], ◌++◌, IfOk};
ghost use Rattle.records.specs.Records.{map_bytes, grey_bytes};

use crate::records::Record;
use std::alloc::{AllocError, Global};

// The map byte and the grey byte of each pixel so far.
#[derive(Drop)]
pub struct Tile {
    pub map: Vec<u8>,
    pub picture: Vec<u8>,
}

impl Tile {
    // A tile of which no pixel is read.
    pub fn new(heap: Global) -> Tile
        ensures map { result.map.items ≡ [] }
        ensures picture { result.picture.items ≡ [] }
    {
        Tile {
            map: Vec::new(heap),
            picture: Vec::new(heap),
        }
    }

    // Adds the two bytes of a P; other records have none. Where memory is wanting, one of the two may be added.
    pub fn add(&mut self, record: Record) -> Result<(), AllocError>
        ensures map { IfOk result (λ _. self.new.map.items ≡ self.old.map.items ++ map_bytes «record») }
        ensures picture { IfOk result (λ _. self.new.picture.items ≡ self.old.picture.items ++ grey_bytes «record») }
    {
        if let Record::Pixel(value, grey) = record {
            self.map.push(value)?;
            self.picture.push(grey)?;
        }
        Ok(())
    }
}
