// Slices filled with one value.
ghost use Rattle.std.specs.Prelude.{◌≡◌, length, replicate};

// Writes the value into each element.
pub fn fill<T: Copy>(slice: &mut [T], value: T)
    ensures { slice.new ≡ replicate (length slice.old) value }
{
    for element in slice.iter_mut() {
        *element = value;
    }
}
