// The reader takes the records of a job in turn: one H, then a P for each pixel in order, then C until the end.
ghost use Rattle.std.specs.Prelude.{◌≡◌, ◌<◌, length, slice_index};
ghost use Rattle.records.specs.declared.place.Place.TheVariants as place;
ghost use Rattle.records.specs.declared.records.Kind.TheVariants as kind;
ghost use Rattle.records.specs.Reading.{content, numbered, taken, place_after, ended};

use crate::fault::ReaderFault;
use crate::place::Place;
use crate::records::{Head, Kind, Record, Shape};
use crate::state::Reader;
use morphology::Operation;

// What a C says.
fn call(number: usize, operation: Operation, bytes: &[u8; 8]) -> Result<Record, ReaderFault>
    ensures { result ≡ content number (kind.Call operation) bytes.now }
{
    let [_, _, size, 0, 0, 0, 0, 0] = bytes else {
        return Err(ReaderFault::Filler(number));
    };
    Ok(Record::Call(operation, *size))
}

impl Reader {
    // A reader to which the head comes next.
    pub fn new() -> Reader
        ensures { result.place ≡ place.Head }
    {
        Reader { place: Place::Head }
    }

    // Takes an H: the reader goes on to the pixels.
    fn head(&mut self, number: usize, shape: Shape, bytes: &[u8; 8]) -> Result<Record, ReaderFault>
        ensures answer { result ≡ content number (kind.Head shape) bytes.now }
        ensures place { self.new.place ≡ place_after result self.old.place }
    {
        let [_, width, height, joining, _, limit, 0, 0] = bytes else {
            return Err(ReaderFault::Filler(number));
        };
        let head = Head {
            width: *width,
            height: *height,
            joining: *joining,
            shape,
            limit: *limit,
        };
        head.check()
            .map_err(|fault| ReaderFault::from((fault, number)))?;
        self.place = Place::Pixels { head, next: 0 };
        Ok(Record::Head(head))
    }

    // Takes a P: the reader goes on to the next pixel, or from the last one to the calls.
    fn pixel(
        &mut self,
        number: usize,
        head: Head,
        next: usize,
        bytes: &[u8; 8],
    ) -> Result<Record, ReaderFault>
        requires { self.old.place ≡ place.Pixels head next }
        ensures answer { result ≡ numbered number next bytes.now }
        ensures place { self.new.place ≡ place_after result self.old.place }
    {
        let pixel = usize::from(u16::from_le_bytes([bytes[1], bytes[2]]));
        if pixel != next {
            return Err(ReaderFault::Order(number));
        }
        let [_, _, _, value, grey, 0, 0, 0] = bytes else {
            return Err(ReaderFault::Filler(number));
        };
        let next = next + 1;
        self.place = if next == head.pixels() {
            Place::Calls { head }
        } else {
            Place::Pixels { head, next }
        };
        Ok(Record::Pixel(*value, *grey))
    }

    // Takes the next record. What it may be depends on where the reader is.
    pub fn take(&mut self, number: usize, bytes: &[u8; 8]) -> Result<Record, ReaderFault>
        ensures answer { result ≡ taken number self.old.place bytes.now }
        ensures place { self.new.place ≡ place_after result self.old.place }
        ensures count { length bytes.now ≡ 8 }
        ensures byte { slice_index bytes.now 1 < 256 }
    {
        let kind = Kind::from_bytes(bytes).ok_or(ReaderFault::Letter(number))?;
        match (self.place, kind) {
            (Place::Head, Kind::Head(shape)) => self.head(number, shape, bytes),
            (Place::Pixels { head, next }, Kind::Pixel) => self.pixel(number, head, next, bytes),
            (Place::Calls { .. }, Kind::Call(operation)) => call(number, operation, bytes),
            _ => Err(ReaderFault::Order(number)),
        }
    }

    // May the job end here, after so many records and with so many bytes left over? The head of its tile, if so.
    pub fn end(&self, records: usize, left: usize) -> Result<Head, ReaderFault>
        ensures { result ≡ ended «records» left self.now.place }
    {
        if left != 0 {
            return Err(ReaderFault::Torn(records));
        }
        match self.place {
            Place::Calls { head } => Ok(head),
            _ => Err(ReaderFault::Order(records)),
        }
    }
}
