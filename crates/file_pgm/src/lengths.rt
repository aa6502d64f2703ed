// The test of a size, and the length of a file.
ghost use Rattle.std.specs.Prelude.{◌≡◌, ◌≤◌};
ghost use Rattle.file_pgm.specs.Form.{file_length, sizes_allowed, pgm_length};
ghost use Rattle.file_pgm.specs.Fits.{Sized};

use crate::header::header_length;
use admit_size::size_allowed;

// Both sizes are allowed: refusal 1 would not stand.
#[tactic(auto, unfolding(crate::specs::Form::sizes_allowed))]
pub fn sizes_allowed(width: usize, height: usize) -> bool
    ensures { result ≡ sizes_allowed width height }
{
    size_allowed(width) && size_allowed(height)
}

// The bytes of the file: the header, and two for each sample.
pub fn file_length(width: usize, height: usize) -> usize
    requires { Sized width height }
    ensures { (result ≡ file_length width height) × (result ≤ 33554450) }
{
    header_length(width, height) + 2 * (width * height)
}

// How many bytes the file of a frame has, or 0 where the size is not allowed.
pub fn pgm_length(width: u64, height: u64) -> u64
    ensures { result ≡ pgm_length width height }
{
    if !sizes_allowed(width as usize, height as usize) {
        return 0;
    }
    file_length(width as usize, height as usize) as u64
}
