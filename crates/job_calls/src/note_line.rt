// The line of the note.
ghost use Rattle.std.specs.Prelude.{Some};
ghost use Rattle.job_calls.specs.Lines.{note_line};

use morphology::Levels;
use std::fmt;

// The present, the lowest and the highest level, and how many calls were accepted.
#[derive(Clone, Copy)]
pub(crate) struct NoteLine {
    pub(crate) levels: Levels,
    pub(crate) count: u16,
}

impl fmt::Display for NoteLine {
    ghost output = { λ n. Some (note_line n.levels n.count) };

    fn fmt<W: fmt::Write>(&self, f: &mut fmt::Formatter<W>) -> fmt::Result {
        let Levels {
            present,
            lowest,
            highest,
        } = self.levels;
        let count = self.count;
        writeln!(f, "note {present} {lowest} {highest} {count}")
    }
}
