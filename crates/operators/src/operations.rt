// An operation on a picture: dilations and erosions one after another.
ghost use Rattle.std.specs.Prelude.{◌≡◌, length};
ghost use Rattle.maps.specs.Checks.{first_fault, answered, left_by};
ghost use Rattle.maps.specs.Windows.{pixels_of};
ghost use Rattle.maps.specs.Grounds.{ground};
ghost use Rattle.morphology.specs.Algebra.{times};
ghost use Rattle.morphology.specs.Pictures.{dilation};
ghost use Rattle.neighbourhoods.specs.Zeros.{zeros};
ghost use Rattle.operators.specs.Operations.{operated, room_of, fit_checks, KeptIfRefused};
ghost use Rattle.operators.specs.Steps.{towards, Ready};

use crate::fit::{Unfit, check_fit};
use crate::operator::{Dilation, Erosion, Operator};
use crate::room::Room;
use crate::step::step;
use criteria::Criterion;
use maps::Map;
use morphology::Operation;
use neighbourhoods::clear_all;
use scales::Scale;

// That many dilations, or erosions.
fn repeat<O: Operator, C: Criterion, S: Scale>(
    operator: O,
    size: u8,
    map: &Map<C::Value>,
    criterion: &C,
    picture: &mut [S],
    marks: &mut [u8],
    queue: &mut [u32],
    spare: &mut [S],
)
    requires { Ready (pixels_of map.now) marks.old (length queue.old) (length picture.old) (length spare.old) }
    ensures picture { picture.new ≡
        times size (dilation (towards O.up S.grading) (ground (C.judgement criterion.now) map.now)) picture.old }
    ensures marks { marks.new ≡ marks.old }
{
    for done in 0..size {
        step(operator, map, criterion, picture, marks, queue, spare);
    }
}

// The operation, where all that it needs is there.
fn operate_within<C: Criterion, S: Scale>(
    operation: Operation,
    size: u8,
    map: &Map<C::Value>,
    criterion: &C,
    picture: &mut [S],
    marks: &mut [u8],
    queue: &mut [u32],
    spare: &mut [S],
)
    requires { Ready (pixels_of map.now) marks.old (length queue.old) (length picture.old) (length spare.old) }
    ensures picture { picture.new ≡
        operated S.grading (ground (C.judgement criterion.now) map.now) operation size picture.old }
    ensures marks { marks.new ≡ marks.old }
{
    match operation {
        Operation::Dilate => repeat(Dilation, size, map, criterion, picture, marks, queue, spare),
        Operation::Erode => repeat(Erosion, size, map, criterion, picture, marks, queue, spare),
        Operation::Open => {
            repeat(Erosion, size, map, criterion, picture, marks, queue, spare);
            repeat(Dilation, size, map, criterion, picture, marks, queue, spare);
        }
        Operation::Close => {
            repeat(Dilation, size, map, criterion, picture, marks, queue, spare);
            repeat(Erosion, size, map, criterion, picture, marks, queue, spare);
        }
    }
}

// Does the operation of this size on the picture, or refuses and leaves everything as it was. Marks, queue and spare picture are the room to
// work in: they may hold anything before, and only the marks hold something known after, zero throughout.
// Any map will do, also one with values that are not admitted: each pixel's own value is joined or met with those over its symmetric
// neighbourhood, whether it lies in that or not.
pub fn operate<C: Criterion, S: Scale>(
    operation: Operation,
    size: u8,
    map: &Map<C::Value>,
    criterion: &C,
    picture: &mut [S],
    marks: &mut [u8],
    queue: &mut [u32],
    spare: &mut [S],
) -> Result<(), Unfit>
    ensures answer { result ≡ answered (first_fault (fit_checks (pixels_of map.now) (length picture.old) (room_of marks.old queue.old spare.old))) tt }
    ensures picture { picture.new ≡ left_by result
        (operated S.grading (ground (C.judgement criterion.now) map.now) operation size picture.old)
        picture.old }
    ensures marks { marks.new ≡ left_by result (zeros (length marks.old)) marks.old }
    ensures queue { KeptIfRefused result queue.old queue.new }
    ensures spare { KeptIfRefused result spare.old spare.new }
{
    let room = Room {
        marks: marks.len(),
        queue: queue.len(),
        spare: spare.len(),
    };
    check_fit(map, picture.len(), room)?;
    clear_all(marks);
    let spare = &mut spare[..picture.len()];
    operate_within(
        operation, size, map, criterion, picture, marks, queue, spare,
    );
    Ok(())
}
