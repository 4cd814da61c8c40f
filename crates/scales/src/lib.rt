// Grey scales: kinds of value with an order, a join, a meet and two ends.
// What filters a picture is written once, over any of them.
#![tactic(auto)]

mod grey;
mod phases;
mod relief;
mod scale;
mod theorems;

pub use scale::{Measured, Scale, at_or_below};
pub use theorems::{examples_hold, marks_hold};
