// Faults: every refusal names the layer that found it, its number and its place.
ghost use Rattle.std.specs.Prelude.{◌≡◌};
ghost use Rattle.criteria.specs.Faults.{layer_letter, place_of_count, place_of_part, map_code};

// The layer that found a fault.
#[derive(Clone, Copy, PartialEq, Eq, Debug)]
pub enum Layer {
    Map,
    Bench,
    Job,
}

// The letter that stands for the layer in a fault line.
impl From<Layer> for char {
    ghost from_gives = { λ l r. r ≡ layer_letter l };

    fn from(layer: Layer) -> char {
        match layer {
            Layer::Map => 'M',
            Layer::Bench => 'B',
            Layer::Job => 'J',
        }
    }
}

// A fault as it is printed.
#[derive(Clone, Copy, PartialEq, Eq, Debug)]
pub struct Code {
    pub layer: Layer,
    pub number: u8,
    pub place: usize,
}

// A count that has to be the tile's.
#[derive(Clone, Copy, PartialEq, Eq, Debug)]
pub enum Counted {
    // a map's values
    Values,
    // a sheet's bytes
    Sheet,
}

// The place of a count that is not the tile's.
impl From<Counted> for usize {
    ghost from_gives = { λ c r. r ≡ place_of_count c };

    fn from(counted: Counted) -> usize {
        match counted {
            Counted::Values => 1,
            Counted::Sheet => 2,
        }
    }
}

// A part of the scratch that a call works in.
#[derive(Clone, Copy, PartialEq, Eq, Debug)]
pub enum Part {
    Marks,
    Queue,
    Spare,
}

// The place of a part that is shorter than the tile.
impl From<Part> for usize {
    ghost from_gives = { λ p r. r ≡ place_of_part p };

    fn from(part: Part) -> usize {
        match part {
            Part::Marks => 1,
            Part::Queue => 2,
            Part::Spare => 3,
        }
    }
}

// What criteria and maps refuse.
#[derive(Clone, Copy, PartialEq, Eq, Debug)]
pub enum MapFault {
    // a side outside 1 to 255, or over 4,096 pixels
    Tile,
    // this joining is neither 4 nor 8
    Joining(u8),
    // a tolerance that the criterion does not take
    Tolerance,
    // this count is not the tile's
    Misfit(Counted),
    // this pixel is the first whose value is not admitted
    Inadmissible(usize),
    // this part of the scratch is shorter than the tile
    Scratch(Part),
    // the tile has no pixel of this number
    Pixel(usize),
}

impl From<MapFault> for Code {
    ghost from_gives = { λ f r. r ≡ map_code f };

    fn from(fault: MapFault) -> Code {
        let (number, place) = match fault {
            MapFault::Tile => (1, 0),
            MapFault::Joining(joining) => (2, usize::from(joining)),
            MapFault::Tolerance => (3, 0),
            MapFault::Misfit(counted) => (4, usize::from(counted)),
            MapFault::Inadmissible(pixel) => (5, pixel),
            MapFault::Scratch(part) => (6, usize::from(part)),
            MapFault::Pixel(pixel) => (10, pixel),
        };
        Code {
            layer: Layer::Map,
            number,
            place,
        }
    }
}
