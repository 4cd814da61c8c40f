// The rows of a picture.
ghost use Rattle.std.specs.Prelude.{◌/◌, ◌<◌, length, Some};
ghost use Rattle.lines.specs.Lines.{row_text, rows_text};

use std::fmt;

// A row of values, parted by one space.
#[derive(Clone, Copy)]
struct Row<'a>(&'a [u8]);

impl fmt::Display for Row<'_> {
    ghost output = { λ r. Some (row_text r.0.now) };

    fn fmt<W: fmt::Write>(&self, f: &mut fmt::Formatter<W>) -> fmt::Result {
        if let [first, others @ ..] = self.0 {
            write!(f, "{first}")?;
            for value in others {
                write!(f, " {value}")?;
            }
        }
        Ok(())
    }
}

// The rows of a picture, a line each; values after the last whole row are left out.
#[derive(Clone, Copy)]
pub struct Rows<'a> {
    pub width: usize,
    pub picture: &'a [u8],
    ghost wide: { 0 < width },
}

impl fmt::Display for Rows<'_> {
    ghost output = { λ r. Some (rows_text r.width (length r.picture.now / r.width) r.picture.now) };

    fn fmt<W: fmt::Write>(&self, f: &mut fmt::Formatter<W>) -> fmt::Result {
        for row in self.picture.chunks_exact(self.width) {
            writeln!(f, "{}", Row(row))?;
        }
        Ok(())
    }
}
