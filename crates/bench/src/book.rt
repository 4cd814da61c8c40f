// The book of a bench: the levels through which its calls took the picture, and how many were accepted.
ghost use Rattle.std.specs.Prelude.{◌≡◌, ◌+◌, ◌<◌, ◌≤◌, [], ◌∷◌, pos, negsuc, ◌≤ℤ◌, IfOk, OnOk};
ghost use Rattle.maps.specs.Checks.{first_fault, answered, left_by};
ghost use Rattle.morphology.specs.Levels.{at_zero, touched, left_at, reached, moved};
ghost use Rattle.bench.specs.Bounds.{Inside};

use crate::checks::{check_book, check_level, check_size};
use crate::fault::BenchFault;
use morphology::{Levels, Operation};

// Levels within −64 and 64, and a count of accepted calls.
#[derive(Clone, Copy)]
pub struct Book {
    pub(crate) levels: Levels,
    pub(crate) count: u16,
    ghost inside: { Inside levels },
}

impl Book {
    ghost use Rattle.bench.specs.Checks.{level_checks};
    ghost use Rattle.bench.specs.Settings.{calling};

    // A book with its levels at 0 and no calls.
    pub(crate) fn empty() -> Book
        ensures levels { result.levels ≡ at_zero }
        ensures count { result.count ≡ 0 }
    {
        let levels = Levels {
            present: 0,
            lowest: 0,
            highest: 0,
        };
        Book { levels, count: 0 }
    }

    // The level that an operation of this size touches.
    fn touch(self, operation: Operation, size: u8) -> i8
        requires { size ≤ 16 }
        ensures { result ≡ touched operation size self.levels.present }
    {
        let present = self.levels.present;
        match operation {
            Operation::Dilate | Operation::Close => present + size as i8,
            Operation::Erode | Operation::Open => present - size as i8,
        }
    }

    // The level that a call touches, or why it may not be made.
    fn next_level(self, operation: Operation, size: u8) -> Result<i8, BenchFault>
        ensures answer { result ≡ answered
            (first_fault (level_checks (calling operation size) self.levels.present self.count))
            (touched operation size self.levels.present) }
        ensures low { IfOk result (λ z. negsuc 63 ≤ℤ z) }
        ensures high { IfOk result (λ z. z ≤ℤ pos 64) }
        ensures room { OnOk result (self.count < 60000) }
    {
        check_size(size)?;
        let level = self.touch(operation, size);
        check_level(level)?;
        check_book(self.count)?;
        Ok(level)
    }

    // The level at which an operation that touched `level` leaves the picture.
    fn rest(self, operation: Operation, level: i8) -> i8
        ensures { result ≡ left_at operation level self.levels.present }
    {
        match operation {
            Operation::Dilate | Operation::Erode => level,
            Operation::Open | Operation::Close => self.levels.present,
        }
    }

    // The levels once an operation has touched `level`.
    fn reach(self, operation: Operation, level: i8) -> Levels
        ensures { result ≡ reached operation level self.levels }
    {
        Levels {
            present: self.rest(operation, level),
            lowest: self.levels.lowest.min(level),
            highest: self.levels.highest.max(level),
        }
    }

    // Moves the levels by a call and counts it, or says why it may not. Answers the level at which it leaves the picture.
    pub(crate) fn advance(&mut self, operation: Operation, size: u8) -> Result<i8, BenchFault>
        ensures answer { result ≡ answered
            (first_fault (level_checks (calling operation size) self.old.levels.present self.old.count))
            (moved (calling operation size) self.old.levels).present }
        ensures levels { self.new.levels ≡
            left_by result (moved (calling operation size) self.old.levels) self.old.levels }
        ensures count { self.new.count ≡ left_by result (self.old.count + 1) self.old.count }
        ensures room { OnOk result (self.old.count < 60000) }
    {
        let level = self.next_level(operation, size)?;
        self.levels = self.reach(operation, level);
        self.count += 1;
        Ok(self.levels.present)
    }
}
