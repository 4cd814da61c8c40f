// Slices that are lent for the length of a call.
ghost use Rattle.std.specs.Prelude.{◌≡◌, length, replicate};

use crate::slices::fill;

// A lent slice, and the value that stands in each of its entries once it is let go.
pub struct Lent<'a, T: Copy>(pub &'a mut [T], pub T);

impl<T: Copy> Drop for Lent<'_, T> {
    fn drop(self)
        ensures { self.exit.0.now ≡ replicate (length self.exit.0.now) self.entry.1 }
    {
        let Lent(slice, after) = self;
        fill(slice, after);
    }
}
