// Tiles.
ghost use Rattle.std.specs.Prelude.{◌≡◌, ◌*◌, true, IfOk};
ghost use Rattle.std.specs.Result.{result_err};
ghost use Rattle.maps.specs.Joinings.{number_of};
ghost use Rattle.maps.specs.Checks.{first_fault};
ghost use Rattle.maps.specs.Tiles.{is_map, tile_checks, tile_answer};

use crate::joining::Joining;
use criteria::MapFault;

// The sides of a tile, and how its pixels are joined; or the tile that has no pixel.
#[derive(Clone, Copy, PartialEq, Eq, Debug)]
pub struct Tile {
    pub(crate) width: usize,
    pub(crate) height: usize,
    pub(crate) joining: Joining,
    ghost figures: { is_map width height (number_of joining) ≡ true },
}

impl Tile {
    // The tile of these sides and this joining. The sides are wider than a byte, so that a side of 256 can be refused.
    pub fn new(width: usize, height: usize, joining: u8) -> Result<Tile, MapFault>
        ensures fault { result_err result ≡ first_fault (tile_checks width height joining) }
        ensures width { IfOk result (λ t. t.width ≡ width) }
        ensures height { IfOk result (λ t. t.height ≡ height) }
        ensures joining { IfOk result (λ t. number_of t.joining ≡ joining) }
    {
        if width < 1 || width > 255 || height < 1 || height > 255 || width * height > 4096 {
            return Err(MapFault::Tile);
        }
        let joining = Joining::try_from(joining)?;
        Ok(Tile {
            width,
            height,
            joining,
        })
    }

    // How many pixels the tile has.
    pub fn pixels(self) -> usize
        ensures { result ≡ self.width * self.height }
    {
        self.width * self.height
    }
}

// How many pixels a tile of these sides and this joining has.
pub fn tile_pixels(width: usize, height: usize, joining: u8) -> Result<usize, MapFault>
    ensures { result ≡ tile_answer width height joining }
{
    let tile = Tile::new(width, height, joining)?;
    Ok(tile.pixels())
}
