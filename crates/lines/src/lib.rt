// Lines of text: the line of a fault, and the rows of a picture.
#![tactic(auto)]

mod fault;
mod rows;

pub use fault::FaultText;
pub use rows::Rows;
