// Grey: 0 to 255, by size.
ghost use Rattle.scales.specs.Grey.{grey, grey_gap};
ghost use Rattle.std.proofs.Common.{rules};

use crate::scale::{Measured, Scale};

impl Scale for u8 {
    ghost grading = { grey };

    ghost lattice = { Prim.search rules };

    ghost equality = { Prim.search rules };

    fn join(self, other: u8) -> u8 {
        self.max(other)
    }

    fn meet(self, other: u8) -> u8 {
        self.min(other)
    }

    fn lowest() -> u8 {
        u8::MIN
    }

    fn highest() -> u8 {
        u8::MAX
    }

    fn bounded(self) {}
}

impl Measured for u8 {
    ghost excess = { grey_gap };

    ghost gaps = { Prim.search rules };

    fn gap(self, over: u8) -> u16 {
        u16::from(self.saturating_sub(over))
    }
}
