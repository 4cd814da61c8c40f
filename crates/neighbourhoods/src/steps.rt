// The steps from a pixel to the pixels that may be joined to it.
ghost use Rattle.std.specs.Prelude.{◌≡◌, ◌<◌, IfSome};
ghost use Rattle.maps.specs.Joinings.{number_of};
ghost use Rattle.neighbourhoods.specs.Steps.{shifted, steps_of};

use maps::{Joining, Map};

// By one back, not at all or by one on, in a row or in a column.
#[derive(Clone, Copy)]
pub(crate) enum Shift {
    Back,
    Stay,
    On,
}

// One step: a shift of the row and a shift of the column.
#[derive(Clone, Copy)]
pub(crate) struct Step {
    pub(crate) rows: Shift,
    pub(crate) columns: Shift,
}

// The four straight steps, then the four to the corners.
static STEPS: [Step; 8] = [
    Step {
        rows: Shift::Back,
        columns: Shift::Stay,
    },
    Step {
        rows: Shift::On,
        columns: Shift::Stay,
    },
    Step {
        rows: Shift::Stay,
        columns: Shift::Back,
    },
    Step {
        rows: Shift::Stay,
        columns: Shift::On,
    },
    Step {
        rows: Shift::Back,
        columns: Shift::Back,
    },
    Step {
        rows: Shift::Back,
        columns: Shift::On,
    },
    Step {
        rows: Shift::On,
        columns: Shift::Back,
    },
    Step {
        rows: Shift::On,
        columns: Shift::On,
    },
];

// The steps of a map's joining: four with joining 4, eight with joining 8.
pub(crate) fn steps<V>(map: &Map<V>) -> &'static [Step]
    ensures { result.now ≡ steps_of (number_of map.now.tile.joining) }
{
    match map.joining() {
        Joining::Four => &STEPS[..4],
        Joining::Eight => &STEPS,
    }
}

impl Shift {
    // Where the shift leads from a row, unless it leads past the first or the last of this many rows; the same of columns.
    pub(crate) fn lead(self, from: usize, side: usize) -> Option<usize>
        requires { from < side }
        ensures value { result ≡ shifted side self from }
        ensures inside { IfSome result (λ to. to < side) }
    {
        match self {
            Shift::Back => from.checked_sub(1),
            Shift::Stay => Some(from),
            Shift::On => (from + 1 < side).then_some(from + 1),
        }
    }
}
