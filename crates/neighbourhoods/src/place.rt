// Where a pixel lies on a map, and where a step from it leads.
#![tactic(auto, unfolding(morphology::specs::Tile::row, morphology::specs::Tile::column))]

ghost use Rattle.std.specs.Prelude.{◌≡◌, ◌<◌, ◌≤◌, IfSome};
ghost use Rattle.maps.specs.Windows.{pixels_of};
ghost use Rattle.neighbourhoods.specs.Steps.{place_of, led};

use crate::steps::Step;
use maps::Map;

// The row and the column of a pixel.
#[derive(Clone, Copy)]
pub(crate) struct Place {
    pub(crate) row: usize,
    pub(crate) column: usize,
}

impl Place {
    // Where the pixel lies.
    pub(crate) fn of<V>(pixel: usize, map: &Map<V>) -> Place
        requires { pixel < pixels_of map.now }
        ensures place { result ≡ place_of map.now.tile.width pixel }
        ensures row { result.row < map.now.tile.height }
        ensures column { result.column < map.now.tile.width }
    {
        let width = map.width();
        Place {
            row: pixel / width,
            column: pixel % width,
        }
    }

    // The pixel that the step leads to, unless it leads past the map's edge.
    pub(crate) fn after<V>(self, step: Step, map: &Map<V>) -> Option<usize>
        requires row { self.row < map.now.tile.height }
        requires column { self.column < map.now.tile.width }
        ensures pixel { result ≡ led map.now.tile.width map.now.tile.height step self }
        ensures inside { IfSome result (λ next. next < pixels_of map.now) }
    {
        let row = step.rows.lead(self.row, map.height())?;
        let column = step.columns.lead(self.column, map.width())?;
        Some(row * map.width() + column)
    }
}
