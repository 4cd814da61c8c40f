// What a filter call does, and the levels at which it leaves a picture.

// The four operations of a filter call.
#[derive(Clone, Copy, PartialEq, Eq, Debug)]
pub enum Operation {
    Dilate,
    Erode,
    Open,
    Close,
}

// The level at which a picture stands, and the lowest and the highest level touched so far.
#[derive(Clone, Copy, PartialEq, Eq, Debug)]
pub struct Levels {
    pub present: i8,
    pub lowest: i8,
    pub highest: i8,
}
