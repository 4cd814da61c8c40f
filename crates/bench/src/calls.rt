// The four filter calls.
ghost use Rattle.bench.specs.Settings.{setting, standing, asking};
ghost use Rattle.bench.specs.Calls.{Filtered, Cleared};

use crate::bench::Bench;
use crate::checks::check_handed;
use crate::fault::BenchFault;
use crate::scratch::Scratch;
use criteria::Criterion;
use maps::Map;
use morphology::Operation;
use neighbourhoods::Lent;
use operators::{Room, operate};
use scales::Scale;

// Does the call or refuses it, and leaves the scratch as it comes.
fn attempt<C: Criterion, S: Scale>(
    operation: Operation,
    size: u8,
    bench: &mut Bench,
    map: &Map<C::Value>,
    criterion: &C,
    picture: &mut [S],
    marks: &mut [u8],
    queue: &mut [u32],
    spare: &mut [S],
) -> Result<i8, BenchFault>
    ensures { Filtered (setting S.grading (C.judgement criterion.now) map.now)
        (asking operation size marks.old queue.old spare.old)
        (standing bench.old picture.old) result (standing bench.new picture.new) }
{
    let room = Room {
        marks: marks.len(),
        queue: queue.len(),
        spare: spare.len(),
    };
    check_handed(map, criterion, bench.tile, picture.len(), room)?;
    let level = bench.book.advance(operation, size)?;
    operate(
        operation, size, map, criterion, picture, marks, queue, spare,
    )
    .unwrap();
    Ok(level)
}

// Does the filter call of this operation or refuses it, and leaves the scratch clear however it ends. It is lent the three parts of the
// scratch one by one, since a struct of lent slices that came by value cannot be handed on whole.
pub fn filter<C: Criterion, S: Scale>(
    operation: Operation,
    size: u8,
    bench: &mut Bench,
    map: &Map<C::Value>,
    criterion: &C,
    picture: &mut [S],
    marks: &mut [u8],
    queue: &mut [u32],
    spare: &mut [S],
) -> Result<i8, BenchFault>
    ensures filtered { Filtered (setting S.grading (C.judgement criterion.now) map.now)
        (asking operation size marks.old queue.old spare.old)
        (standing bench.old picture.old) result (standing bench.new picture.new) }
    ensures cleared { Cleared S.grading.lowest marks.new queue.new spare.new }
{
    let marks = Lent(marks, 0);
    let queue = Lent(queue, 0);
    let spare = Lent(spare, S::lowest());
    attempt(
        operation, size, bench, map, criterion, picture, marks.0, queue.0, spare.0,
    )
}

// Dilates the picture `size` times.
pub fn dilate<C: Criterion, S: Scale>(
    bench: &mut Bench,
    map: &Map<C::Value>,
    criterion: &C,
    picture: &mut [S],
    scratch: Scratch<S>,
    size: u8,
) -> Result<i8, BenchFault>
    ensures filtered { Filtered (setting S.grading (C.judgement criterion.now) map.now)
        (asking Operation.Dilate size scratch.entry.marks.now scratch.entry.queue.now scratch.entry.spare.now)
        (standing bench.old picture.old) result (standing bench.new picture.new) }
    ensures cleared { Cleared S.grading.lowest
        scratch.exit.0.now scratch.exit.1.0.now scratch.exit.1.1.0.now }
{
    let Scratch {
        marks,
        queue,
        spare,
    } = scratch;
    filter(
        Operation::Dilate,
        size,
        bench,
        map,
        criterion,
        picture,
        marks,
        queue,
        spare,
    )
}

// Erodes the picture `size` times.
pub fn erode<C: Criterion, S: Scale>(
    bench: &mut Bench,
    map: &Map<C::Value>,
    criterion: &C,
    picture: &mut [S],
    scratch: Scratch<S>,
    size: u8,
) -> Result<i8, BenchFault>
    ensures filtered { Filtered (setting S.grading (C.judgement criterion.now) map.now)
        (asking Operation.Erode size scratch.entry.marks.now scratch.entry.queue.now scratch.entry.spare.now)
        (standing bench.old picture.old) result (standing bench.new picture.new) }
    ensures cleared { Cleared S.grading.lowest
        scratch.exit.0.now scratch.exit.1.0.now scratch.exit.1.1.0.now }
{
    let Scratch {
        marks,
        queue,
        spare,
    } = scratch;
    filter(
        Operation::Erode,
        size,
        bench,
        map,
        criterion,
        picture,
        marks,
        queue,
        spare,
    )
}

// Erodes the picture `size` times, then dilates it as often.
pub fn open<C: Criterion, S: Scale>(
    bench: &mut Bench,
    map: &Map<C::Value>,
    criterion: &C,
    picture: &mut [S],
    scratch: Scratch<S>,
    size: u8,
) -> Result<i8, BenchFault>
    ensures filtered { Filtered (setting S.grading (C.judgement criterion.now) map.now)
        (asking Operation.Open size scratch.entry.marks.now scratch.entry.queue.now scratch.entry.spare.now)
        (standing bench.old picture.old) result (standing bench.new picture.new) }
    ensures cleared { Cleared S.grading.lowest
        scratch.exit.0.now scratch.exit.1.0.now scratch.exit.1.1.0.now }
{
    let Scratch {
        marks,
        queue,
        spare,
    } = scratch;
    filter(
        Operation::Open,
        size,
        bench,
        map,
        criterion,
        picture,
        marks,
        queue,
        spare,
    )
}

// Dilates the picture `size` times, then erodes it as often.
pub fn close<C: Criterion, S: Scale>(
    bench: &mut Bench,
    map: &Map<C::Value>,
    criterion: &C,
    picture: &mut [S],
    scratch: Scratch<S>,
    size: u8,
) -> Result<i8, BenchFault>
    ensures filtered { Filtered (setting S.grading (C.judgement criterion.now) map.now)
        (asking Operation.Close size scratch.entry.marks.now scratch.entry.queue.now scratch.entry.spare.now)
        (standing bench.old picture.old) result (standing bench.new picture.new) }
    ensures cleared { Cleared S.grading.lowest
        scratch.exit.0.now scratch.exit.1.0.now scratch.exit.1.1.0.now }
{
    let Scratch {
        marks,
        queue,
        spare,
    } = scratch;
    filter(
        Operation::Close,
        size,
        bench,
        map,
        criterion,
        picture,
        marks,
        queue,
        spare,
    )
}
