// Jobs: the reading of their records, the calls that they ask for, and the text that they print.
#![tactic(auto)]

mod call_line;
mod calls;
mod note_line;
mod reporting;
mod seating;
mod theorems;
mod tile;
mod view;

pub use reporting::{measure, report};
pub use theorems::jobs_hold;
