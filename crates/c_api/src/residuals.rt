// Each tile's residual at lent vectors, for C.
ghost use Rattle.stacker.specs.Residuals.{ResidualsFound};
ghost use Rattle.c_types.specs.Parameters.{shape_of};

use c_types::{Burst, MergeTuning, shape_of};
use refusals::answer;

// A burst and lent vectors to the residuals. Of the tuning only the side is read.
#[unsafe(no_mangle)]
pub extern "C" fn stacker_residuals(
    burst: Burst,
    tuning: MergeTuning,
    samples: &[u16],
    vectors: &[i32],
    residuals: &mut [u64],
    work: &mut [i64],
) -> u64
    ensures { ResidualsFound (shape_of burst tuning.side) burst.reference samples.now vectors.now residuals.old residuals.new work.old work.new result }
{
    answer(stacker::residuals::residuals(
        shape_of(burst, tuning.side),
        burst.reference as usize,
        samples,
        vectors,
        &mut *residuals,
        &mut *work,
    ))
}
