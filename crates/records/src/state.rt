// The reader: where it is, and what holds of that.
ghost use Rattle.std.specs.Prelude.{◌≡◌, true};
ghost use Rattle.records.specs.Bounds.{sound};

use crate::place::Place;

#[derive(Clone, Copy, Debug, PartialEq, Eq)]
pub struct Reader {
    pub(crate) place: Place,
    ghost sound: { sound place ≡ true },
}

impl Reader {
    // Where the reader is.
    pub fn place(&self) -> Place
        ensures { result ≡ self.now.place }
    {
        self.place
    }
}
