// The room that a filter call works in.

// Lent slices, each of an entry for each pixel or more. What they hold is lost.
#[derive(Drop)]
pub struct Scratch<'a, S> {
    pub marks: &'a mut [u8],
    pub queue: &'a mut [u32],
    pub spare: &'a mut [S],
}
