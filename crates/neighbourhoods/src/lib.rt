// Neighbourhoods: the flood that finds one, and the two calls that show one.
#![tactic(auto)]

mod checks;
mod floods;
mod lent;
mod marks;
mod place;
mod reach;
mod sheets;
mod slices;
mod steps;
mod theorems;
mod values;

pub use floods::flood;
pub use lent::Lent;
pub use marks::{capacity, clear_all};
pub use reach::{reach_symmetric, reach_weak};
pub use slices::fill;
pub use theorems::{examples_hold, steps_hold};
