// The bench on which a picture is filtered: seat, the four filter calls, the residue of two pictures, and the note at the end.
#![tactic(auto)]

mod bench;
mod book;
mod calls;
mod checks;
mod fault;
mod gaps;
mod note;
mod scratch;
mod seating;

pub use bench::Bench;
pub use calls::{close, dilate, erode, filter, open};
pub use fault::{BenchFault, Misfit};
pub use gaps::residue;
pub use note::{Note, finish};
pub use scratch::Scratch;
pub use seating::seat;
