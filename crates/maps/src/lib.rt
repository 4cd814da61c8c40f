// Maps: windows on criterion values, and what is wrong with one.
#![tactic(auto)]

mod admission;
mod joining;
mod make;
mod map;
mod tile;

pub use admission::{check_admitted, first_inadmissible};
pub use joining::Joining;
pub use map::Map;
pub use tile::{Tile, tile_pixels};
