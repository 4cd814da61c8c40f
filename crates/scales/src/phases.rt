// Phase sets: 32 marks as the bits of one number, ordered by inclusion.
ghost use Rattle.std.specs.Prelude.{◌≡◌, count_ones};
ghost use Rattle.scales.specs.Phases.{Within, phases, without, phase_gap};
ghost use Rattle.scales.specs.Marks.{phase_lattice, phase_gaps};
ghost use Rattle.std.proofs.Common.{rules};

use crate::scale::{Measured, Scale};

impl Scale for u32 {
    ghost grading = { phases };

    ghost lattice = { phase_lattice };

    ghost equality = { Prim.search rules };

    fn join(self, other: u32) -> u32 {
        self | other
    }

    fn meet(self, other: u32) -> u32 {
        self & other
    }

    fn lowest() -> u32 {
        u32::MIN
    }

    fn highest() -> u32 {
        u32::MAX
    }

    fn bounded(self) {}
}

// The marks of one set that another lacks: none exactly when the set lies within the other.
fn lacking(set: u32, other: u32) -> u32
    ensures marks { result ≡ without set other }
    ensures only { count_ones result ≡ 0 → Within set other }
    ensures none { Within set other → count_ones result ≡ 0 }
{
    set & !other
}

impl Measured for u32 {
    ghost excess = { phase_gap };

    ghost gaps = { phase_gaps };

    fn gap(self, over: u32) -> u16 {
        lacking(self, over).count_ones() as u16
    }
}
