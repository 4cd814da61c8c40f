// The records of a job: how they lie in eight bytes, which may come where, and what is wrong with the others.
#![tactic(auto)]

mod criterion;
mod cut;
mod fault;
mod head;
mod letters;
mod place;
mod reader;
mod records;
mod state;
mod stop;
mod theorems;
mod tile;

pub use criterion::ByteCriterion;
pub use cut::Cut;
pub use fault::ReaderFault;
pub use place::Place;
pub use records::{Head, Record, Shape};
pub use state::Reader;
pub use stop::Stop;
pub use theorems::records_hold;
pub use tile::Tile;

#[cfg(test)]
mod tests {
    use super::*;
    use std::test::Fail;

    // There is memory for the two bytes of a pixel.
    #[test]
    fn a_pixel_is_added(rt: HostRuntime) -> Result<(), Fail> {
        let mut tile = Tile::new(rt.alloc());
        tile.add(Record::Pixel(7, 9))?;
        assert!(rt; tile.map[..] == [7] && tile.picture[..] == [9]);
        Ok(())
    }
}
