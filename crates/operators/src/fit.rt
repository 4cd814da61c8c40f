// Whether a picture and the room to work in fit a map.
ghost use Rattle.std.specs.Prelude.{◌≡◌, ◌≤◌, OnOk};
ghost use Rattle.maps.specs.Checks.{first_fault, answered};
ghost use Rattle.maps.specs.Windows.{pixels_of};
ghost use Rattle.operators.specs.Operations.{fit_checks};

use crate::room::Room;
use criteria::Part;
use maps::Map;

// What does not fit the map.
#[derive(Clone, Copy, PartialEq, Eq, Debug)]
pub enum Unfit {
    // its count is not the map's
    Picture,
    // this part has fewer entries than the map has pixels
    Scratch(Part),
}

// Refuses a picture whose count is not the map's, and marks, a queue or a spare picture without an entry for each pixel.
pub(crate) fn check_fit<V>(map: &Map<V>, picture: usize, room: Room) -> Result<(), Unfit>
    ensures answer { result ≡ answered (first_fault (fit_checks (pixels_of map.now) picture room)) tt }
    ensures picture { OnOk result (picture ≡ pixels_of map.now) }
    ensures marks { OnOk result (pixels_of map.now ≤ room.marks) }
    ensures queue { OnOk result (pixels_of map.now ≤ room.queue) }
    ensures spare { OnOk result (pixels_of map.now ≤ room.spare) }
{
    let pixels = map.pixels();
    if picture != pixels {
        return Err(Unfit::Picture);
    }
    if room.marks < pixels {
        return Err(Unfit::Scratch(Part::Marks));
    }
    if room.queue < pixels {
        return Err(Unfit::Scratch(Part::Queue));
    }
    if room.spare < pixels {
        return Err(Unfit::Scratch(Part::Spare));
    }
    Ok(())
}
