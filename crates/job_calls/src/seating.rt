// The map of a job, and the bench on which its picture is seated.
ghost use Rattle.std.specs.Prelude.{◌≡◌, length, IfOk, Some, None, MatchResult};
ghost use Rattle.maps.specs.Checks.{first_fault};
ghost use Rattle.maps.specs.Tiles.{map_checks};
ghost use Rattle.maps.specs.Windows.{window, window_of};
ghost use Rattle.maps.specs.Admission.{FirstNot};
ghost use Rattle.bench.specs.Laws.{Seated};
ghost use Rattle.job_calls.specs.Made.{grey_setting};
ghost use Rattle.job_calls.specs.Calling.{RefusedAt};

use bench::Bench;
use criteria::Criterion;
use maps::Map;
use records::{Head, ReaderFault};

// Makes the map of a head that passed and seats the picture, at the record of the last pixel.
pub(crate) fn seat_at<'a, C: Criterion<Value = u8>>(
    number: usize,
    head: Head,
    criterion: &C,
    map: &mut Map<'a, u8>,
    values: &'a [u8],
    picture: &[u8],
) -> Result<Bench, ReaderFault>
    requires passed { first_fault (map_checks head.width head.height head.joining (length values.now)) ≡ None }
    requires count { length picture.now ≡ length values.now }
    ensures window { window_of map.new ≡ window values.now head.width head.height head.joining }
    ensures seated { IfOk result (Seated (grey_setting (C.judgement criterion.now) map.new) picture.now) }
    ensures admitted { MatchResult result (λ _. FirstNot (C.judgement criterion.now).admits values.now None)
        (RefusedAt number (λ i. FirstNot (C.judgement criterion.now).admits values.now (Some i))) }
{
    let Ok(()) = head.lay(map, values) else {
        unreachable()
    };
    bench::seat(&*map, criterion, picture).map_err(|fault| ReaderFault::from((fault, number)))
}
