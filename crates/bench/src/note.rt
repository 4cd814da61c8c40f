// The note of a finished bench.
ghost use Rattle.std.specs.Prelude.{◌≡◌, ◌<◌, ◌≤◌};
ghost use Rattle.bench.specs.Notes.{filed, raised};

use crate::bench::Bench;
use crate::book::Book;

// What a finished bench leaves: it is filed or struck, and never let go.
pub struct Note {
    pub(crate) book: Book,
}

// Nothing may let a note of a bench go: its book would have to have more calls than a book holds. Only a call that takes the note
// apart ends it.
impl Drop for Note {
    fn drop(self)
        requires { 60000 < self.book.count }
    {
        let Note { book: _ } = self;
    }
}

// A level as a byte.
fn level_byte(level: i8) -> u8
    ensures { result ≡ raised level }
{
    (i16::from(level) + 64).unsigned_abs() as u8
}

impl Note {
    // The note's eight bytes.
    pub fn file(self) -> [u8; 8]
        ensures { result ≡ filed self.book.levels self.book.count }
    {
        let Note {
            book: Book { levels, count },
        } = self;
        let [low, high] = count.to_le_bytes();
        [
            b'N',
            level_byte(levels.present),
            level_byte(levels.lowest),
            level_byte(levels.highest),
            low,
            high,
            0,
            0,
        ]
    }

    // The accepted count alone.
    pub fn strike(self) -> u16
        ensures { result ≡ self.book.count }
    {
        let Note { book } = self;
        book.count
    }
}

// Ends the bench. Its note has to be filed or struck.
pub fn finish(bench: Bench) -> Note
    ensures levels { result.book.levels ≡ bench.book.levels }
    ensures book { result.book.count ≡ bench.book.count }
    ensures within { result.book.count ≤ 60000 }
{
    Note { book: bench.book }
}
