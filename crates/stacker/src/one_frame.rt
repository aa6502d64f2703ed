// Align, of one other frame: the vectors of a burst by calls that know nothing of each other.
ghost use Rattle.stacker.specs.OneFrame.{FrameAligned};

use admit_call::one_frame::align_frame_refusal;
use align_burst::burst::align_one;
use geometry::Shape;
use pipeline::clear;

// What it answers: the refusal's number, or 0, that frame's sum of finest residuals, and how many tile rows were summed for it.
// A number and not an error, since C gets it by value.
#[repr(C)]
#[derive(Clone, Copy)]
pub struct FrameAlignment {
    pub refusal: u64,
    pub residual: u64,
    pub rows: u64,
}

// The vectors of the frame at place `other` among the other frames, counted from 0 in rising index.
pub fn align_frame(
    shape: Shape,
    reference: usize,
    other: usize,
    samples: &[u16],
    vectors: &mut [i32],
    work: &mut [i64],
) -> FrameAlignment
    ensures { FrameAligned shape reference other samples.now vectors.old vectors.new work.old work.new result }
{
    let tested = align_frame_refusal(shape, reference, other, samples, &*vectors, &*work);
    if let Err(refusal) = tested {
        return FrameAlignment {
            refusal: refusal.number(),
            residual: 0,
            rows: 0,
        };
    }
    let sums = align_one(shape, reference, other, samples, &mut *vectors, &mut *work);
    clear(&mut *work);
    FrameAlignment {
        refusal: 0,
        residual: sums.residual,
        rows: sums.rows,
    }
}
