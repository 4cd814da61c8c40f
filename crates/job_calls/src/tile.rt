// The tile of a job: its H and its P.
ghost use Rattle.std.specs.Prelude.{◌≡◌, MatchResult};
ghost use Rattle.records.specs.declared.place.Place.TheVariants as place;
ghost use Rattle.job_calls.specs.Ends.{Taken, NoTile};

use records::{Cut, Head, Place, Reader, Stop, Tile};
use std::alloc::Global;

// A tile that was taken from the front of a job: the reader after it, its head, the job's records, how many of them are the tile's,
// and the tile's map bytes and grey bytes.
#[derive(Drop)]
pub(crate) struct TakenTile<'a> {
    pub(crate) reader: Reader,
    pub(crate) head: Head,
    pub(crate) cut: Cut<'a>,
    pub(crate) taken: usize,
    pub(crate) bytes: Tile,
    ghost tile: { Taken cut.records.now taken head bytes.map.items bytes.picture.items },
    ghost calls: { reader.place ≡ place.Calls head },
}

// Takes records until the tile is whole. What comes before that and is no part of a tile is refused.
pub(crate) fn read_tile<'a>(heap: Global, cut: Cut<'a>) -> Result<TakenTile<'a>, Stop>
    ensures { MatchResult result (λ t. (t.cut.records.now ≡ cut.entry.records.now) × (t.cut.left ≡ cut.entry.left)) (NoTile cut.entry.records.now cut.entry.left) }
{
    let mut reader = Reader::new();
    let mut bytes = Tile::new(heap);
    for (number, record) in cut.records.iter().enumerate() {
        let taken = reader.take(number, record)?;
        bytes.add(taken)?;
        if let Place::Calls { head } = reader.place() {
            return Ok(TakenTile {
                reader,
                head,
                cut,
                taken: number + 1,
                bytes,
            });
        }
    }
    reader.end(cut.records.len(), cut.left)?;
    unreachable()
}
