// Sheets, and pixels that are listed.
ghost use Rattle.std.specs.Prelude.{◌≡◌, ℕ, ◌<◌, ◌==◌, length, slice_index};
ghost use Rattle.std.specs.List.{list_any};
ghost use Rattle.neighbourhoods.specs.Sheets.{drawn};

// Writes 1 into the sheet at the listed pixels.
pub(crate) fn draw(sheet: &mut [u8], pixels: &[u32])
    requires { (i : ℕ) → i < length pixels.now → slice_index pixels.now i < length sheet.old }
    ensures { sheet.new ≡ drawn sheet.old pixels.now }
{
    for pixel in pixels {
        sheet[*pixel as usize] = 1;
    }
}

// Is the pixel listed?
pub(crate) fn lists(pixels: &[u32], pixel: usize) -> bool
    ensures { result ≡ list_any (λ listed. listed == pixel) pixels.now }
{
    pixels.iter().any(|listed| *listed as usize == pixel)
}
