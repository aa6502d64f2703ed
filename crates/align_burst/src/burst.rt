// The vectors of every other frame of a burst.
ghost use Rattle.std.specs.Prelude.{◌+◌, ◌≤◌};
ghost use Rattle.align_burst.specs.Prelude.{length, sample_at, frame_parts};
ghost use Rattle.align_burst.specs.Burst.{Ready, AlignedBurst, BehindReference, OneAligned, ReadyFrame, AlignedFrame};

use crate::frame::align_levels;
use align_field::Sums;
use geometry::Shape;
use geometry::tiles::frame_parts;
use geometry::vectors::other_frame;

// What aligning a burst adds up: the sums of residuals of the other frames in rising index, unused places 0, and the tile rows that were summed in all.
#[derive(Clone, Copy)]
pub struct Totals {
    pub residuals: [u64; 7],
    pub rows: u64,
}

// One frame against the reference, whose pyramid stands at the work area's start: its vectors from `to` on, the sum of their residuals, and the
// tile rows that were summed.
fn align_frame(
    shape: Shape,
    reference: usize,
    frame: usize,
    samples: &[u16],
    vectors: &mut [i32],
    to: usize,
    work: &mut [i64],
) -> Sums
    requires { (BehindReference shape reference frame samples.now work.old) × (to + frame_parts shape ≤ length vectors.old) }
    ensures { OneAligned shape (sample_at shape samples.now reference) (sample_at shape samples.now frame) vectors.old to vectors.new work.old work.new result }
{
    let at = align_pyramid::offset(shape, 6);
    align_pyramid::build(shape, frame, samples, &mut *work, at);
    align_levels(shape, &mut *work, &mut *vectors, to)
}

// The vectors of every other frame in rising index, their sums of residuals, and the tile rows that were summed. It neither tests nor clears.
pub fn align_frames(
    shape: Shape,
    reference: usize,
    samples: &[u16],
    vectors: &mut [i32],
    work: &mut [i64],
) -> Totals
    requires { Ready shape reference samples.now vectors.old work.old }
    ensures { AlignedBurst shape reference samples.now vectors.new work.old work.new result }
{
    align_pyramid::build(shape, reference, samples, &mut *work, 0);
    let parts = frame_parts(shape);
    let mut sums = [0u64; 7];
    let mut rows: u64 = 0;
    for k in 0..shape.count - 1 {
        let frame = other_frame(reference, k);
        let aligned = align_frame(
            shape,
            reference,
            frame,
            samples,
            &mut *vectors,
            k * parts,
            &mut *work,
        );
        sums[k] = aligned.residual;
        rows += aligned.rows;
    }
    Totals {
        residuals: sums,
        rows,
    }
}

// The same of one of the other frames alone, the one at place `other` among them, whose vectors are all that are lent.
pub fn align_one(
    shape: Shape,
    reference: usize,
    other: usize,
    samples: &[u16],
    vectors: &mut [i32],
    work: &mut [i64],
) -> Sums
    requires { ReadyFrame shape reference other samples.now vectors.old work.old }
    ensures { AlignedFrame shape reference other samples.now vectors.new work.old work.new result }
{
    align_pyramid::build(shape, reference, samples, &mut *work, 0);
    let frame = other_frame(reference, other);
    align_frame(
        shape,
        reference,
        frame,
        samples,
        &mut *vectors,
        0,
        &mut *work,
    )
}
