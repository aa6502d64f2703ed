// Align, for C.
ghost use Rattle.stacker.specs.Calls.{Aligned};
ghost use Rattle.c_types.specs.Parameters.{shape_of};

use c_types::{Burst, MergeTuning, shape_of};
use stacker::Alignment;

// A burst to its vectors. Of the tuning only the side is read.
#[unsafe(no_mangle)]
pub extern "C" fn stacker_align(
    burst: Burst,
    tuning: MergeTuning,
    samples: &[u16],
    vectors: &mut [i32],
    work: &mut [i64],
) -> Alignment
    ensures { Aligned (shape_of burst tuning.side) burst.reference samples.now vectors.old vectors.new work.old work.new result }
{
    stacker::align::align(
        shape_of(burst, tuning.side),
        burst.reference as usize,
        samples,
        &mut *vectors,
        &mut *work,
    )
}
