// The room to work in.

// How many entries each part of a scratch has.
#[derive(Clone, Copy, PartialEq, Eq, Debug)]
pub struct Room {
    pub marks: usize,
    pub queue: usize,
    pub spare: usize,
}
