// Jobs whose calls are counted and not made: their reading, and the text that they print.
#![tactic(auto)]

mod reading;
mod text;
mod theorems;

pub use text::report;
pub use theorems::jobs_hold;
