// Relief: -32,768 to 32,767, by size.
ghost use Rattle.scales.specs.Relief.{relief, relief_gap};
ghost use Rattle.std.proofs.Common.{rules};

use crate::scale::{Measured, Scale};

impl Scale for i16 {
    ghost grading = { relief };

    ghost lattice = { Prim.search rules };

    ghost equality = { Prim.search rules };

    fn join(self, other: i16) -> i16 {
        self.max(other)
    }

    fn meet(self, other: i16) -> i16 {
        self.min(other)
    }

    fn lowest() -> i16 {
        i16::MIN
    }

    fn highest() -> i16 {
        i16::MAX
    }

    fn bounded(self) {}
}

impl Measured for i16 {
    ghost excess = { relief_gap };

    ghost gaps = { Prim.search rules };

    fn gap(self, over: i16) -> u16 {
        if self > over { self.abs_diff(over) } else { 0 }
    }
}
