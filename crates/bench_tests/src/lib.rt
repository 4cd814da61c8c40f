// A caller that leans on the law over lists of calls, and runs of the bench on the three scales.
#![tactic(auto)]

ghost use Rattle.std.specs.Prelude.{◌≡◌, length, IfOk, OnOk, OnErr};
ghost use Rattle.std.specs.Result.{result_err};
ghost use Rattle.maps.specs.Checks.{first_fault};
ghost use Rattle.morphology.specs.Pictures.{Under};
ghost use Rattle.operators.specs.Operations.{room_of};
ghost use Rattle.bench.specs.Settings.{setting};
ghost use Rattle.bench.specs.Checks.{seat_checks};
ghost use Rattle.bench.specs.Calls.{Cleared};
ghost use Rattle.bench_tests.specs.Lowered.{Lowered};

use bench::{Bench, BenchFault, Scratch};
use criteria::Criterion;
use maps::Map;
use scales::Scale;

// Opens the picture and then erodes it; whatever is refused, the picture ends at or below where it began.
pub fn lower<C: Criterion, S: Scale>(
    map: &Map<C::Value>,
    criterion: &C,
    picture: &mut [S],
    marks: &mut [u8],
    queue: &mut [u32],
    spare: &mut [S],
    size: u8,
) -> Result<Bench, BenchFault>
    ensures fault { result_err result ≡ first_fault (seat_checks (C.judgement criterion.now) map.now (length picture.old)) }
    ensures lowered { IfOk result (λ b. Lowered (setting S.grading (C.judgement criterion.now) map.now)
        size (room_of marks.old queue.old spare.old) picture.old b picture.new) }
    ensures below { Under S.grading picture.new picture.old }
    ensures cleared { OnOk result (Cleared S.grading.lowest marks.new queue.new spare.new) }
    ensures picture_kept { OnErr result (picture.new ≡ picture.old) }
    ensures scratch_kept { OnErr result ((marks.new ≡ marks.old) × (queue.new ≡ queue.old) × (spare.new ≡ spare.old)) }
{
    let mut seated = bench::seat(map, criterion, picture)?;
    let scratch = Scratch {
        marks: &mut *marks,
        queue: &mut *queue,
        spare: &mut *spare,
    };
    let _ = bench::open(&mut seated, map, criterion, picture, scratch, size);
    let scratch = Scratch {
        marks,
        queue,
        spare,
    };
    let _ = bench::erode(&mut seated, map, criterion, picture, scratch, size);
    Ok(seated)
}

#[cfg(test)]
mod tests {
    use bench::{Bench, BenchFault, Note, Scratch};
    use criteria::{Step, Tolerance};
    use maps::Map;
    use morphology::Operation;
    use scales::Scale;
    use std::test::Fail;

    static WORKED: [u8; 5] = [0, 10, 20, 30, 100];

    // A picture on its bench, with the map, the criterion and the spare picture of its calls.
    #[derive(Drop)]
    struct Seat<'a, S> {
        bench: Bench,
        map: &'a Map<'a, u8>,
        step: &'a Step,
        picture: &'a mut [S],
        spare: &'a mut [S],
    }

    impl<S: Scale> Seat<'_, S> {
        // One call, with scratch of eight marks and nine queue entries.
        fn call(&mut self, operation: Operation, size: u8) -> Result<i8, BenchFault> {
            let mut marks = [7; 8];
            let mut queue = [7; 9];
            bench::filter(
                operation,
                size,
                &mut self.bench,
                self.map,
                self.step,
                self.picture,
                &mut marks,
                &mut queue,
                self.spare,
            )
        }

        // The same call so many times. Were all accepted?
        fn repeat(&mut self, operation: Operation, size: u8, times: u32) -> bool {
            let mut all = true;
            for _ in 0..times {
                all &= self.call(operation, size).is_ok();
            }
            all
        }

        fn finish(self) -> Note {
            bench::finish(self.bench)
        }
    }

    // The worked job: dilate 1, erode 2, open 0 (refused), close 1; and its note.
    #[test]
    fn grey_bytes(rt: HostRuntime) -> Result<(), Fail> {
        let step = Step::try_from(Tolerance::Step(10))?;
        let mut map = Map::empty();
        map.make(5, 1, 4, &WORKED)?;
        let taken = [9u8, 2, 2, 2, 4];
        let mut picture = taken;
        let mut spare = [255u8; 6];
        let mut seat = Seat {
            bench: bench::seat(&map, &step, &picture)?,
            map: &map,
            step: &step,
            picture: &mut picture,
            spare: &mut spare,
        };
        assert!(rt; seat.call(Operation::Dilate, 1) == Ok(1));
        assert!(rt; seat.picture[..] == [9, 9, 9, 2, 4]);
        assert!(rt; seat.call(Operation::Erode, 2) == Ok(-1));
        assert!(rt; seat.call(Operation::Open, 0) == Err(BenchFault::Size(0)));
        assert!(rt; seat.call(Operation::Close, 1) == Ok(-1));
        assert!(rt; seat.finish().file() == [78, 63, 63, 65, 3, 0, 0, 0]);
        assert!(rt; picture == [2, 2, 2, 2, 4] && spare == [0; 6]);
        assert!(rt; bench::residue(&taken, &picture) == Ok(7));
        Ok(())
    }

    // Each of the four calls by its own name.
    #[test]
    fn calls_by_name(rt: HostRuntime) -> Result<(), Fail> {
        let step = Step::try_from(Tolerance::Step(10))?;
        let mut map = Map::empty();
        map.make(5, 1, 4, &WORKED)?;
        let mut picture = [1u8, 9, 5, 5, 4];
        let mut marks = [7; 5];
        let mut queue = [7; 5];
        let mut spare = [7; 5];
        let mut seated = bench::seat(&map, &step, &picture)?;
        let scratch = Scratch {
            marks: &mut marks,
            queue: &mut queue,
            spare: &mut spare,
        };
        let opened = bench::open(&mut seated, &map, &step, &mut picture, scratch, 1);
        assert!(rt; opened == Ok(0) && picture == [1, 5, 5, 5, 4]);
        let scratch = Scratch {
            marks: &mut marks,
            queue: &mut queue,
            spare: &mut spare,
        };
        let eroded = bench::erode(&mut seated, &map, &step, &mut picture, scratch, 1);
        assert!(rt; eroded == Ok(-1) && picture == [1, 1, 1, 5, 4]);
        let scratch = Scratch {
            marks: &mut marks,
            queue: &mut queue,
            spare: &mut spare,
        };
        let dilated = bench::dilate(&mut seated, &map, &step, &mut picture, scratch, 1);
        assert!(rt; dilated == Ok(0) && picture == [1, 5, 5, 5, 4]);
        let scratch = Scratch {
            marks: &mut marks,
            queue: &mut queue,
            spare: &mut spare,
        };
        let closed = bench::close(&mut seated, &map, &step, &mut picture, scratch, 1);
        assert!(rt; closed == Ok(0) && picture == [5, 5, 5, 5, 4]);
        assert!(rt; bench::finish(seated).file() == [78, 64, 63, 65, 4, 0, 0, 0]);
        Ok(())
    }

    // A pit of relief is closed, and the residue counts its depth.
    #[test]
    fn relief(rt: HostRuntime) -> Result<(), Fail> {
        let step = Step::try_from(Tolerance::Step(10))?;
        let mut map = Map::empty();
        map.make(5, 1, 4, &WORKED)?;
        let taken = [5i16, -300, 5, 5, -7];
        let mut picture = taken;
        let mut spare = [0i16; 5];
        let mut seat = Seat {
            bench: bench::seat(&map, &step, &picture)?,
            map: &map,
            step: &step,
            picture: &mut picture,
            spare: &mut spare,
        };
        assert!(rt; seat.call(Operation::Close, 1) == Ok(0));
        assert!(rt; seat.finish().strike() == 1);
        assert!(rt; picture == [5, 5, 5, 5, -7] && spare == [-32768; 5]);
        assert!(rt; bench::residue(&picture, &taken) == Ok(305));
        Ok(())
    }

    // A dilation joins the phase sets of each neighbourhood.
    #[test]
    fn phase_sets(rt: HostRuntime) -> Result<(), Fail> {
        let step = Step::try_from(Tolerance::Step(10))?;
        let mut map = Map::empty();
        map.make(5, 1, 4, &WORKED)?;
        let taken = [1u32, 2, 4, 8, 16];
        let mut picture = taken;
        let mut spare = [0u32; 5];
        let mut seat = Seat {
            bench: bench::seat(&map, &step, &picture)?,
            map: &map,
            step: &step,
            picture: &mut picture,
            spare: &mut spare,
        };
        assert!(rt; seat.call(Operation::Dilate, 1) == Ok(1));
        assert!(rt; seat.finish().strike() == 1);
        assert!(rt; picture == [7, 15, 15, 14, 16]);
        assert!(rt; bench::residue(&picture, &taken) == Ok(10));
        Ok(())
    }

    // At level 60 dilate 4 passes; dilate 5 and close 5 are refused at place 1; open 16 passes.
    #[test]
    fn levels_at_60(rt: HostRuntime) -> Result<(), Fail> {
        let step = Step::try_from(Tolerance::Step(0))?;
        let mut map = Map::empty();
        map.make(1, 1, 8, &[0])?;
        let mut picture = [1u8];
        let mut spare = [0u8];
        let mut seat = Seat {
            bench: bench::seat(&map, &step, &picture)?,
            map: &map,
            step: &step,
            picture: &mut picture,
            spare: &mut spare,
        };
        assert!(rt; seat.repeat(Operation::Dilate, 15, 4));
        assert!(rt; seat.call(Operation::Dilate, 5) == Err(BenchFault::Level(1)));
        assert!(rt; seat.call(Operation::Close, 5) == Err(BenchFault::Level(1)));
        assert!(rt; seat.call(Operation::Open, 16) == Ok(60));
        assert!(rt; seat.call(Operation::Dilate, 4) == Ok(64));
        assert!(rt; seat.finish().file() == [78, 128, 64, 128, 6, 0, 0, 0]);
        Ok(())
    }

    // The book has room for 60,000 calls; a full book still answers Size and Level first.
    #[test]
    fn a_full_book(rt: HostRuntime) -> Result<(), Fail> {
        let step = Step::try_from(Tolerance::Step(0))?;
        let mut map = Map::empty();
        map.make(1, 1, 4, &[0])?;
        let mut picture = [1u8];
        let mut spare = [0u8];
        let mut seat = Seat {
            bench: bench::seat(&map, &step, &picture)?,
            map: &map,
            step: &step,
            picture: &mut picture,
            spare: &mut spare,
        };
        assert!(rt; seat.repeat(Operation::Open, 1, 60000));
        assert!(rt; seat.call(Operation::Open, 1) == Err(BenchFault::Book));
        assert!(rt; seat.call(Operation::Open, 17) == Err(BenchFault::Size(17)));
        assert!(rt; seat.finish().strike() == 60000);
        Ok(())
    }
}
