// The lent marks. How a mark lies in bytes is known here alone.
#![tactic(auto, unfolding(crate::specs::Marks::served, crate::specs::Marks::free, crate::specs::Marks::marked, crate::specs::Marks::unmarked))]

ghost use Rattle.std.specs.Prelude.{◌≡◌, ◌<◌, length};
ghost use Rattle.neighbourhoods.specs.Zeros.{zeros};
ghost use Rattle.neighbourhoods.specs.Marks.{served, free, marked, unmarked};

// Frees every pixel.
pub fn clear_all(marks: &mut [u8])
    ensures { marks.new ≡ zeros (length marks.old) }
{
    marks.fill(0);
}

// How many pixels the marks serve.
pub fn capacity(marks: &[u8]) -> usize
    ensures { result ≡ served (length marks.now) }
{
    marks.len()
}

// Is the pixel free of a mark?
pub(crate) fn is_free(marks: &[u8], pixel: usize) -> bool
    requires { pixel < served (length marks.now) }
    ensures { result ≡ free marks.now pixel }
{
    marks[pixel] == 0
}

// Marks the pixel.
pub(crate) fn put(marks: &mut [u8], pixel: usize)
    requires { pixel < served (length marks.old) }
    ensures { marks.new ≡ marked marks.old pixel }
{
    marks[pixel] = 1;
}

// Frees the pixel.
pub(crate) fn clear(marks: &mut [u8], pixel: usize)
    requires { pixel < served (length marks.old) }
    ensures { marks.new ≡ unmarked marks.old pixel }
{
    marks[pixel] = 0;
}
