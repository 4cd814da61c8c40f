// The making of maps, and what is known of a map that is made.
ghost use Rattle.std.specs.Prelude.{◌≡◌, length};
ghost use Rattle.maps.specs.Checks.{first_fault, answered, left_by};
ghost use Rattle.maps.specs.Tiles.{map_checks};
ghost use Rattle.maps.specs.Windows.{window, window_of, empty_window, pixels_of};

use crate::joining::Joining;
use crate::map::Map;
use crate::tile::Tile;
use criteria::{Counted, MapFault};

impl<'a, V> Map<'a, V> {
    // The map that has no pixel.
    pub fn empty() -> Map<'a, V>
        ensures { window_of result ≡ empty_window }
    {
        Map {
            values: &[],
            tile: Tile {
                width: 0,
                height: 0,
                joining: Joining::Four,
            },
        }
    }

    // Makes this map the window on the values, or leaves it as it was.
    pub fn make(
        &mut self,
        width: usize,
        height: usize,
        joining: u8,
        values: &'a [V],
    ) -> Result<(), MapFault>
        ensures answer { result ≡ answered (first_fault (map_checks width height joining (length values.now))) tt }
        ensures window { window_of self.new ≡ left_by result (window values.now width height joining) (window_of self.old) }
    {
        let tile = Tile::new(width, height, joining)?;
        if values.len() != tile.pixels() {
            return Err(MapFault::Misfit(Counted::Values));
        }
        *self = Map { values, tile };
        Ok(())
    }

    // The tile that the values cover.
    pub fn tile(&self) -> Tile
        ensures { result ≡ self.now.tile }
    {
        self.tile
    }

    // How many pixels the map has.
    pub fn pixels(&self) -> usize
        ensures { result ≡ pixels_of self.now }
    {
        self.values.len()
    }
}
