// What run does once its tests have passed. A burst's levels Ls and Lr come from its noise or from a file: the calls and the programs share this core.
#![tactic(auto)]

ghost use Rattle.std.specs.Prelude.{◌≡◌};
ghost use Rattle.sequences.specs.Clear.{zeros};
ghost use Rattle.pipeline.specs.Levels.{Runnable, RanLevels};

use align_burst::burst::Totals;
use recipe::Merge;

// Sets the work area to zero.
pub fn clear(work: &mut [i64])
    ensures { work.new ≡ zeros work.old }
{
    work.fill(0);
}

// Align, merge and clear, from the levels on: answers the sums of finest residuals and the tile rows summed. The vectors found need no test: they
// fit (`found-fit`).
pub fn run_levels(
    m: Merge,
    samples: &[u16],
    vectors: &mut [i32],
    output: &mut [u16],
    work: &mut [i64],
) -> Totals
    requires { Runnable m samples.now vectors.old output.old work.old }
    ensures { RanLevels m samples.now vectors.new output.new work.old work.new result }
{
    let shape = m.shape;
    let reference = m.reference;
    let totals = align_burst::burst::align_frames(
        shape,
        reference,
        samples,
        &mut *vectors,
        &mut *work,
    );
    merge_frame::merge_frames(m, samples, &*vectors, &mut *output, &mut *work);
    clear(&mut *work);
    totals
}
