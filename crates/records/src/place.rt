// Where the reader is.
use crate::records::Head;

// What the reader takes next, and what it knows by then.
#[derive(Clone, Copy, Debug, PartialEq, Eq)]
pub enum Place {
    // the head
    Head,
    // the pixel with this number, of the tile that the head names
    Pixels { head: Head, next: usize },
    // the calls on that tile
    Calls { head: Head },
}
