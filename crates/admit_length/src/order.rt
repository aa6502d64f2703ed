// The tests 1 to 7 of the calls, in the order of the numbers with 22 after 3 and 23 before 4, on the lengths of the lent buffers.
ghost use Rattle.std.specs.Prelude.{◌≡◌};
ghost use Rattle.admit_length.specs.Prelude.{first, Allowed, TileSide};
ghost use Rattle.admit_length.specs.Order.{shape_tests, frame_tests, burst_tests, align_lengths, merge_lengths, align_shape_tests, merge_shape_tests};
ghost use Rattle.admit_length.specs.Residuals.{residual_lengths, residual_shape_tests};
ghost use Rattle.refusals.specs.Refused.{answer_of};

use crate::lengths::{
    length_refusal, output_length, residual_length, sample_length, vector_length, work_length,
};
use admit_size::{count_refusal, reference_refusal, row_refusal, side_refusal, size_refusal};
use geometry::Shape;
use refusals::{Refusal, first};

// Tests 1 and 2.
#[tactic(auto, unfolding(refusals::specs::Tests::first, crate::specs::Order::shape_tests))]
pub fn shape_refusal(shape: Shape) -> Result<(), Refusal>
    ensures { answer_of result ≡ first (shape_tests shape) }
{
    first(&[size_refusal(shape), count_refusal(shape)])
}

// Tests 1 to 3, and 23: of frames that no tiles are laid on.
#[tactic(auto, using(refusals::specs::RefusedLaws::refuses, refusals::specs::RefusedLaws::stopped, refusals::specs::RefusedLaws::continued), unfolding(refusals::specs::Tests::first, crate::specs::Order::frame_tests))]
pub fn frame_refusal(shape: Shape, reference: usize) -> Result<(), Refusal>
    ensures { answer_of result ≡ first (frame_tests shape reference) }
{
    shape_refusal(shape)?;
    reference_refusal(shape, reference)?;
    row_refusal(shape)
}

// Tests 1 to 3, 22 and 23.
#[tactic(auto, using(refusals::specs::RefusedLaws::refuses, refusals::specs::RefusedLaws::stopped, refusals::specs::RefusedLaws::continued), unfolding(refusals::specs::Tests::first, crate::specs::Order::burst_tests))]
pub fn burst_refusal(shape: Shape, reference: usize) -> Result<(), Refusal>
    ensures { answer_of result ≡ first (burst_tests shape reference) }
{
    shape_refusal(shape)?;
    reference_refusal(shape, reference)?;
    side_refusal(shape)?;
    row_refusal(shape)
}

// Tests 4, 5 and 7.
#[tactic(auto, using(refusals::specs::RefusedLaws::refuses), unfolding(refusals::specs::Tests::first, crate::specs::Order::align_lengths))]
fn align_lengths(shape: Shape, samples: usize, vectors: usize, work: usize) -> Result<(), Refusal>
    requires { (Allowed shape) × (TileSide shape.side) }
    ensures { answer_of result ≡ first (align_lengths shape samples vectors work) }
{
    length_refusal(Refusal::SampleLength, sample_length(shape), samples)?;
    length_refusal(Refusal::VectorLength, vector_length(shape), vectors)?;
    length_refusal(Refusal::WorkLength, work_length(shape), work)
}

// Tests 4 to 7.
#[tactic(auto, using(refusals::specs::RefusedLaws::refuses), unfolding(refusals::specs::Tests::first, crate::specs::Order::merge_lengths))]
fn merge_lengths(
    shape: Shape,
    samples: usize,
    vectors: usize,
    output: usize,
    work: usize,
) -> Result<(), Refusal>
    requires { (Allowed shape) × (TileSide shape.side) }
    ensures { answer_of result ≡ first (merge_lengths shape samples vectors output work) }
{
    length_refusal(Refusal::SampleLength, sample_length(shape), samples)?;
    length_refusal(Refusal::VectorLength, vector_length(shape), vectors)?;
    length_refusal(Refusal::OutputLength, output_length(shape), output)?;
    length_refusal(Refusal::WorkLength, work_length(shape), work)
}

// Tests 1 to 5 and 7, with 22 after 3 and 23 before 4.
#[tactic(auto, using(refusals::specs::RefusedLaws::stopped, refusals::specs::RefusedLaws::continued), unfolding(crate::specs::Order::align_shape_tests))]
pub fn align_shape_refusal(
    shape: Shape,
    reference: usize,
    samples: usize,
    vectors: usize,
    work: usize,
) -> Result<(), Refusal>
    ensures { answer_of result ≡ first (align_shape_tests shape reference samples vectors work) }
{
    burst_refusal(shape, reference)?;
    align_lengths(shape, samples, vectors, work)
}

// Tests 1 to 7, with 22 after 3 and 23 before 4.
#[tactic(auto, using(refusals::specs::RefusedLaws::stopped, refusals::specs::RefusedLaws::continued), unfolding(crate::specs::Order::merge_shape_tests))]
pub fn merge_shape_refusal(
    shape: Shape,
    reference: usize,
    samples: usize,
    vectors: usize,
    output: usize,
    work: usize,
) -> Result<(), Refusal>
    ensures { answer_of result ≡ first (merge_shape_tests shape reference samples vectors output work) }
{
    burst_refusal(shape, reference)?;
    merge_lengths(shape, samples, vectors, output, work)
}

// Tests 4 to 7, where 6 is of the residuals.
#[tactic(auto, using(refusals::specs::RefusedLaws::refuses), unfolding(refusals::specs::Tests::first, crate::specs::Residuals::residual_lengths))]
fn residual_lengths(
    shape: Shape,
    samples: usize,
    vectors: usize,
    residuals: usize,
    work: usize,
) -> Result<(), Refusal>
    requires { (Allowed shape) × (TileSide shape.side) }
    ensures { answer_of result ≡ first (residual_lengths shape samples vectors residuals work) }
{
    length_refusal(Refusal::SampleLength, sample_length(shape), samples)?;
    length_refusal(Refusal::VectorLength, vector_length(shape), vectors)?;
    length_refusal(Refusal::OutputLength, residual_length(shape), residuals)?;
    length_refusal(Refusal::WorkLength, work_length(shape), work)
}

// Tests 1 to 7, with 22 after 3 and 23 before 4, where 6 is of the residuals.
#[tactic(auto, using(refusals::specs::RefusedLaws::stopped, refusals::specs::RefusedLaws::continued), unfolding(crate::specs::Residuals::residual_shape_tests))]
pub fn residual_shape_refusal(
    shape: Shape,
    reference: usize,
    samples: usize,
    vectors: usize,
    residuals: usize,
    work: usize,
) -> Result<(), Refusal>
    ensures { answer_of result ≡ first (residual_shape_tests shape reference samples vectors residuals work) }
{
    burst_refusal(shape, reference)?;
    residual_lengths(shape, samples, vectors, residuals, work)
}
