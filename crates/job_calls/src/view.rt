// What is printed of a job whose calls are all made.
ghost use Rattle.std.specs.Prelude.{◌≡◌, ◌<◌, ◌≤◌, length, string_bytes};
ghost use Rattle.records.specs.Records.{pixels};
ghost use Rattle.job_calls.specs.Lines.{Appends, differing};
ghost use Rattle.job_calls.specs.Prints.{Ending, rows_and_note, inclusions};

use crate::note_line::NoteLine;
use lines::Rows;
use morphology::Levels;
use records::Head;
use std::alloc::AllocError;

// A job whose calls are all made: its tile as taken and as filtered, the levels, and how many calls were accepted.
#[derive(Clone, Copy)]
pub(crate) struct Done<'a> {
    pub(crate) head: Head,
    pub(crate) taken: &'a [u8],
    pub(crate) filtered: &'a [u8],
    pub(crate) levels: Levels,
    pub(crate) count: u16,
    ghost taken_whole: { length taken.now ≡ pixels head },
    ghost filtered_whole: { length filtered.now ≡ pixels head },
    ghost some: { 0 < pixels head },
    ghost few: { pixels head ≤ 4096 },
}

// What is printed of it.
pub(crate) trait View {
    ghost ending: { Ending };

    // Adds the ending to a text.
    fn push(text: &mut String, done: Done) -> Result<(), AllocError>
        ensures { Appends (string_bytes text.old)
            (ending done.entry.head done.entry.taken.now done.entry.filtered.now done.entry.levels done.entry.count)
            (string_bytes text.new) result };
}

// The rows of the filtered tile, and the note.
pub(crate) struct RowsAndNote;

impl View for RowsAndNote {
    ghost ending = { rows_and_note };

    fn push(text: &mut String, done: Done) -> Result<(), AllocError> {
        let rows = Rows {
            width: usize::from(done.head.width),
            picture: done.filtered,
        };
        let note = NoteLine {
            levels: done.levels,
            count: done.count,
        };
        write!(text, "{rows}{note}")
    }
}

// How many pixels of two pictures differ.
fn count_differing(first: &[u8], second: &[u8]) -> usize
    ensures { result ≡ differing first.now second.now }
{
    first.iter().zip(second).filter(|(a, b)| a != b).count()
}

// The residue of the tile as taken over the tile as filtered, and how many pixels differ.
pub(crate) struct Inclusions;

impl View for Inclusions {
    ghost ending = { inclusions };

    fn push(text: &mut String, done: Done) -> Result<(), AllocError> {
        let Ok(residue) = bench::residue(done.taken, done.filtered) else {
            unreachable()
        };
        let differing = count_differing(done.taken, done.filtered);
        writeln!(text, "residue {residue}\npixels {differing}")
    }
}
