// Seating a picture.
ghost use Rattle.std.specs.Prelude.{◌≡◌, length, IfOk};
ghost use Rattle.std.specs.Result.{result_err};
ghost use Rattle.maps.specs.Checks.{first_fault};
ghost use Rattle.bench.specs.Settings.{setting};
ghost use Rattle.bench.specs.Checks.{seat_checks};
ghost use Rattle.bench.specs.Laws.{Seated};

use crate::bench::Bench;
use crate::checks::check_seat;
use crate::fault::BenchFault;
use criteria::Criterion;
use maps::Map;
use scales::Scale;

// A bench for this picture, its levels at 0 and its book empty. What any list of filter calls on it comes to is part of the promise.
pub fn seat<C: Criterion, S: Scale>(
    map: &Map<C::Value>,
    criterion: &C,
    picture: &[S],
) -> Result<Bench, BenchFault>
    ensures fault { result_err result ≡
        first_fault (seat_checks (C.judgement criterion.now) map.now (length picture.now)) }
    ensures seated { IfOk result (Seated (setting S.grading (C.judgement criterion.now) map.now) picture.now) }
{
    check_seat(map, criterion, picture.len())?;
    Ok(Bench::new(map.tile()))
}
