// The mathematics of adaptive dilation and erosion over any grey scale, proved once, and the plain data of a filter call.
#![tactic(auto)]

mod calls;
mod theorems;

pub use calls::{Levels, Operation};
pub use theorems::{levels_hold, neighbourhoods_hold, operators_hold, runs_hold, tile_holds};
