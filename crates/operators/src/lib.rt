// What an operator does to a picture: dilations and erosions, worked out by floods.
#![tactic(auto)]

mod fit;
mod operations;
mod operator;
mod room;
mod step;

pub use fit::Unfit;
pub use operations::operate;
pub use room::Room;
