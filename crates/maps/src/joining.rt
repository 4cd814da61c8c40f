// How pixels are joined.
ghost use Rattle.std.specs.Prelude.{◌≡◌};
ghost use Rattle.maps.specs.Joinings.{number_of, Numbered};

use criteria::MapFault;

// Over the four shared sides, or over the four shared corners too.
#[derive(Clone, Copy, PartialEq, Eq, Debug)]
pub enum Joining {
    Four,
    Eight,
}

impl TryFrom<u8> for Joining {
    type Error = MapFault;

    ghost try_from_gives = { Numbered };

    fn try_from(number: u8) -> Result<Joining, MapFault> {
        match number {
            4 => Ok(Joining::Four),
            8 => Ok(Joining::Eight),
            _ => Err(MapFault::Joining(number)),
        }
    }
}

// To how many pixels one is joined.
impl From<Joining> for u8 {
    ghost from_gives = { λ j r. r ≡ number_of j };

    fn from(joining: Joining) -> u8 {
        match joining {
            Joining::Four => 4,
            Joining::Eight => 8,
        }
    }
}
