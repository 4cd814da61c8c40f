// The tile that an H names, the check of an H by the code that makes maps and criteria, and its map.
ghost use Rattle.std.specs.Prelude.{◌≡◌, length};
ghost use Rattle.maps.specs.Checks.{first_fault, answered, left_by};
ghost use Rattle.maps.specs.Tiles.{map_checks};
ghost use Rattle.maps.specs.Windows.{window, window_of};
ghost use Rattle.records.specs.Records.{pixels};
ghost use Rattle.records.specs.Reading.{head_answer};

use crate::records::Head;
use bench::BenchFault;
use criteria::MapFault;
use maps::Map;

impl Head {
    // How many pixels the tile has.
    pub(crate) fn pixels(self) -> usize
        ensures { result ≡ pixels self }
    {
        usize::from(self.width) * usize::from(self.height)
    }

    // Do tile, joining and tolerance pass?
    pub(crate) fn check(self) -> Result<(), BenchFault>
        ensures { result ≡ head_answer self }
    {
        maps::tile_pixels(
            usize::from(self.width),
            usize::from(self.height),
            self.joining,
        )?;
        self.shape.tolerance(self.limit).check()?;
        Ok(())
    }

    // Makes the map the window of this tile on the values, or leaves it as it was.
    pub fn lay<'a>(self, map: &mut Map<'a, u8>, values: &'a [u8]) -> Result<(), MapFault>
        ensures answer { result ≡
            answered (first_fault (map_checks self.width self.height self.joining (length values.now))) tt }
        ensures window { window_of map.new ≡
            left_by result (window values.now self.width self.height self.joining) (window_of map.old) }
    {
        map.make(
            usize::from(self.width),
            usize::from(self.height),
            self.joining,
            values,
        )
    }
}
