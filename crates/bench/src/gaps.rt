// The residue of two pictures.
ghost use Rattle.std.specs.Prelude.{◌≡◌, ◌≤◌, length};
ghost use Rattle.maps.specs.Checks.{first_fault, answered};
ghost use Rattle.bench.specs.Residues.{residue_checks, gap_sum};

use crate::fault::{BenchFault, Misfit};
use scales::Measured;

// The sum over all pixels of the gap of the first picture over the second.
fn sum_gaps<S: Measured>(first: &[S], second: &[S]) -> u32
    requires { (length first.now ≡ length second.now) × (length first.now ≤ 4096) }
    ensures { result ≡ gap_sum S.excess first.now second.now }
{
    let mut sum = 0;
    for (a, b) in first.iter().zip(second) {
        sum += u32::from(a.gap(*b));
    }
    sum
}

// How far the first picture lies above the second, over all pixels.
pub fn residue<S: Measured>(first: &[S], second: &[S]) -> Result<u32, BenchFault>
    ensures { result ≡ answered (first_fault (residue_checks (length first.now) (length second.now)))
        (gap_sum S.excess first.now second.now) }
{
    if !(1..=4096).contains(&first.len()) {
        return Err(BenchFault::Tile);
    }
    if first.len() != second.len() {
        return Err(BenchFault::Misfit(Misfit::Picture));
    }
    Ok(sum_gaps(first, second))
}
