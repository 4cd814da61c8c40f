// What the bench layer refuses.
ghost use Rattle.std.specs.Prelude.{◌≡◌};
ghost use Rattle.bench.specs.declared.fault.BenchFault.TheVariants.{Map};
ghost use Rattle.bench.specs.Faults.{place_of_misfit, bench_code};

use criteria::{Code, Layer, MapFault, Part};

// What does not fit the bench.
#[derive(Clone, Copy, PartialEq, Eq, Debug)]
pub enum Misfit {
    // the map has no pixel, or another tile than the bench's
    Map,
    // a picture's count is not the tile's, or not the other picture's
    Picture,
}

// The place of what does not fit.
impl From<Misfit> for usize {
    ghost from_gives = { λ m r. r ≡ place_of_misfit m };

    fn from(misfit: Misfit) -> usize {
        match misfit {
            Misfit::Map => 1,
            Misfit::Picture => 2,
        }
    }
}

#[derive(Clone, Copy, PartialEq, Eq, Debug)]
pub enum BenchFault {
    // found by the map layer
    Map(MapFault),
    // a picture of no pixel, or of over 4,096
    Tile,
    // this does not fit
    Misfit(Misfit),
    // this part of the scratch is shorter than the tile
    Scratch(Part),
    // this size is not 1 to 16
    Size(u8),
    // a touched level lies this far outside −64 to 64
    Level(u8),
    // the book is full
    Book,
}

impl From<MapFault> for BenchFault {
    ghost from_gives = { λ f r. r ≡ Map f };

    fn from(fault: MapFault) -> BenchFault {
        BenchFault::Map(fault)
    }
}

impl From<BenchFault> for Code {
    ghost from_gives = { λ f r. r ≡ bench_code f };

    fn from(fault: BenchFault) -> Code {
        let (number, place) = match fault {
            BenchFault::Map(fault) => return Code::from(fault),
            BenchFault::Tile => (1, 0),
            BenchFault::Misfit(misfit) => (4, usize::from(misfit)),
            BenchFault::Scratch(part) => (6, usize::from(part)),
            BenchFault::Size(size) => (7, usize::from(size)),
            BenchFault::Level(far) => (8, usize::from(far)),
            BenchFault::Book => (9, 0),
        };
        Code {
            layer: Layer::Bench,
            number,
            place,
        }
    }
}
