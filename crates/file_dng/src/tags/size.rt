// The size of a file's frame.
ghost use Rattle.std.specs.Prelude.{◌≡◌};
ghost use Rattle.file_dng.specs.Tiff.Directory.{entries};
ghost use Rattle.file_dng.specs.Tags.Size.{lone_shape, dng_size};

use crate::tags::DngSize;
use crate::tags::faults::fault_tag;
use crate::tags::tags::{IMAGE_LENGTH, IMAGE_WIDTH};
use crate::tags::tests::{tag_refusal, value_of};
use geometry::{Shape, shaped};

// A burst of the file's one frame.
fn lone_shape(file: &[u8]) -> Shape
    ensures { result ≡ lone_shape file.now (entries file.now) }
{
    let width = value_of(file, IMAGE_WIDTH) as u64;
    let height = value_of(file, IMAGE_LENGTH) as u64;
    shaped(width, height, 1, 16, width)
}

// Tests 19, 20 and 21 for a burst of the file's own size: that size, or the tag at fault. No sample is read.
pub fn dng_size(file: &[u8]) -> DngSize
    ensures { result ≡ dng_size file.now (entries file.now) }
{
    let shape = lone_shape(file);
    match tag_refusal(file, shape) {
        Ok(()) => DngSize {
            refusal: 0,
            tag: 0,
            width: shape.width as u64,
            height: shape.height as u64,
        },
        Err(refusal) => DngSize {
            refusal: refusal.number(),
            tag: fault_tag(refusal, file, shape),
            width: 0,
            height: 0,
        },
    }
}
