// The bench: the tile of its map, its levels, and how many calls it has accepted.
ghost use Rattle.std.specs.Prelude.{◌≡◌, ◌≤◌};
ghost use Rattle.morphology.specs.Levels.{at_zero};

use crate::book::Book;
use maps::Tile;
use morphology::Levels;

// A seated picture's bench. Its levels stay within −64 and 64, and its book has at most 60,000 calls.
#[derive(Drop)]
pub struct Bench {
    pub(crate) tile: Tile,
    pub(crate) book: Book,
    ghost booked: { book.count ≤ 60000 },
}

impl Bench {
    // A bench for this tile, its levels at 0 and its book empty.
    pub(crate) fn new(tile: Tile) -> Bench
        ensures tile { result.tile ≡ tile }
        ensures levels { result.book.levels ≡ at_zero }
        ensures count { result.book.count ≡ 0 }
    {
        Bench {
            tile,
            book: Book::empty(),
        }
    }

    // The present, the lowest and the highest level.
    pub fn levels(&self) -> Levels
        ensures { result ≡ self.now.book.levels }
    {
        self.book.levels
    }

    // How many calls were accepted.
    pub fn count(&self) -> u16
        ensures { result ≡ self.now.book.count }
    {
        self.book.count
    }
}
