// What a map is, and what it tells of itself.
ghost use Rattle.std.specs.Prelude.{◌≡◌, ◌*◌, length};

use crate::joining::Joining;
use crate::tile::Tile;

// A window on criterion values, one for each pixel in pixel order, that nobody writes while the map is kept.
#[derive(Drop)]
pub struct Map<'a, V> {
    pub(crate) values: &'a [V],
    pub(crate) tile: Tile,
    ghost full: { length values.now ≡ tile.width * tile.height },
}

impl<'a, V> Map<'a, V> {
    // The value of each pixel in pixel order.
    pub fn values(&self) -> &'a [V]
        ensures { result.now ≡ self.now.values.now }
    {
        self.values
    }

    pub fn width(&self) -> usize
        ensures { result ≡ self.now.tile.width }
    {
        self.tile.width
    }

    pub fn height(&self) -> usize
        ensures { result ≡ self.now.tile.height }
    {
        self.tile.height
    }

    pub fn joining(&self) -> Joining
        ensures { result ≡ self.now.tile.joining }
    {
        self.tile.joining
    }
}
