// Align: a burst to its vectors.
ghost use Rattle.stacker.specs.Calls.{Aligned};

use crate::{Alignment, accepted, refused};
use admit_call::align_refusal;
use geometry::Shape;
use pipeline::clear;

// The vectors of a burst, per other frame its sum of finest residuals, and the tile rows summed.
pub fn align(
    shape: Shape,
    reference: usize,
    samples: &[u16],
    vectors: &mut [i32],
    work: &mut [i64],
) -> Alignment
    ensures { Aligned shape reference samples.now vectors.old vectors.new work.old work.new result }
{
    if let Err(refusal) = align_refusal(shape, reference, samples, &*vectors, &*work) {
        return refused(refusal);
    }
    let totals = align_burst::burst::align_frames(
        shape,
        reference,
        samples,
        &mut *vectors,
        &mut *work,
    );
    clear(&mut *work);
    accepted(totals)
}
