// Align of one other frame, for C.
ghost use Rattle.stacker.specs.OneFrame.{FrameAligned};
ghost use Rattle.c_types.specs.Parameters.{shape_of};

use c_types::{Burst, MergeTuning, shape_of};
use stacker::one_frame::FrameAlignment;

// A burst to the vectors of the frame at place `other` among the other frames. Of the tuning only the side is read.
#[unsafe(no_mangle)]
pub extern "C" fn stacker_align_frame(
    burst: Burst,
    tuning: MergeTuning,
    other: u64,
    samples: &[u16],
    vectors: &mut [i32],
    work: &mut [i64],
) -> FrameAlignment
    ensures { FrameAligned (shape_of burst tuning.side) burst.reference other samples.now vectors.old vectors.new work.old work.new result }
{
    stacker::one_frame::align_frame(
        shape_of(burst, tuning.side),
        burst.reference as usize,
        other as usize,
        samples,
        &mut *vectors,
        &mut *work,
    )
}
