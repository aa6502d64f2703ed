// The tests of the call that aligns one other frame: align's, with 27 before 4, 5 of that frame's vectors alone, and 7 of half the work area.
ghost use Rattle.std.specs.Prelude.{◌≡◌};
ghost use Rattle.admit_length.specs.Prelude.{first, Allowed, TileSide};
ghost use Rattle.admit_length.specs.OneFrame.{other_refusal, frame_work_length, align_frame_lengths, align_frame_shape_tests};
ghost use Rattle.refusals.specs.Refused.{answer_of};

use crate::lengths::{length_refusal, sample_length};
use crate::order::burst_refusal;
use geometry::Shape;
use geometry::tiles::frame_parts;
use refusals::{Refusal, refuse};

// Refusal 27: no such frame beside the reference.
#[tactic(auto, unfolding(crate::specs::OneFrame::other_refusal))]
fn other_refusal(shape: Shape, other: usize) -> Result<(), Refusal>
    requires { Allowed shape }
    ensures { answer_of result ≡ other_refusal shape other }
{
    refuse(Refusal::Part, other >= shape.count - 1)
}

// Words of work: one to a sample of a frame.
fn frame_work_length(shape: Shape) -> usize
    requires { Allowed shape }
    ensures { result ≡ frame_work_length shape }
{
    shape.width * shape.height
}

// Tests 4, 5 and 7.
#[tactic(auto, using(refusals::specs::RefusedLaws::refuses), unfolding(refusals::specs::Tests::first, crate::specs::OneFrame::align_frame_lengths))]
fn align_frame_lengths(
    shape: Shape,
    samples: usize,
    vectors: usize,
    work: usize,
) -> Result<(), Refusal>
    requires { (Allowed shape) × (TileSide shape.side) }
    ensures { answer_of result ≡ first (align_frame_lengths shape samples vectors work) }
{
    length_refusal(Refusal::SampleLength, sample_length(shape), samples)?;
    length_refusal(Refusal::VectorLength, frame_parts(shape), vectors)?;
    length_refusal(Refusal::WorkLength, frame_work_length(shape), work)
}

// Tests 1 to 5 and 7, with 22 after 3, and 23 and 27 before 4.
#[tactic(auto, using(refusals::specs::RefusedLaws::stopped, refusals::specs::RefusedLaws::continued, refusals::specs::RefusedLaws::refuses), unfolding(refusals::specs::Tests::first, crate::specs::OneFrame::align_frame_shape_tests))]
pub fn align_frame_shape_refusal(
    shape: Shape,
    reference: usize,
    other: usize,
    samples: usize,
    vectors: usize,
    work: usize,
) -> Result<(), Refusal>
    ensures { answer_of result ≡ first (align_frame_shape_tests shape reference other samples vectors work) }
{
    burst_refusal(shape, reference)?;
    other_refusal(shape, other)?;
    align_frame_lengths(shape, samples, vectors, work)
}
