// DNG files, for C.
ghost use Rattle.std.specs.Prelude.{◌≡◌};
ghost use Rattle.file_dng.specs.Tiff.Directory.{entries};
ghost use Rattle.file_dng.specs.Tags.Size.{dng_size};
ghost use Rattle.file_dng.specs.Reading.{FrameRead};
ghost use Rattle.c_types.specs.Parameters.{shape_of, of_frames};

use c_types::{Frames, of_frames, shape_of};
use file_dng::DngRead;
use file_dng::tags::DngSize;

// Reads a DNG file into one frame of the lent samples. The black levels of the description are not read, and no tiles are laid.
#[unsafe(no_mangle)]
pub extern "C" fn stacker_read_dng(
    file: &[u8],
    frames: Frames,
    frame: u64,
    samples: &mut [u16],
) -> DngRead
    ensures { FrameRead file.now (shape_of (of_frames frames) 16) frame samples.old result samples.new }
{
    let shape = shape_of(of_frames(frames), 16);
    file_dng::read_dng(file, shape, frame as usize, &mut *samples)
}

// The size of a file's frame, or the tag at fault.
#[unsafe(no_mangle)]
pub extern "C" fn stacker_dng_size(file: &[u8]) -> DngSize
    ensures { result ≡ dng_size file.now (entries file.now) }
{
    file_dng::tags::dng_size(file)
}
