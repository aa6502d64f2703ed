// The tests of the call of request L14, in their order.
#![tactic(auto)]

ghost use Rattle.std.specs.Prelude.{◌≡◌};
ghost use Rattle.refusals.specs.Tests.{first};
ghost use Rattle.geometry.specs.Fits.{Sampled};
ghost use Rattle.refusals.specs.Refused.{answer_of};
ghost use Rattle.admit_range.specs.Refusals.{narrow_refusal, range_frame_tests, range_shape_tests, filter_refusal, range_content_tests, range_refusal};

use admit_length::lengths::{
    length_refusal, output_length, sample_length, vector_length, work_length,
};
use admit_length::order::shape_refusal;
use admit_size::{reference_refusal, row_refusal};
use geometry::Shape;
use noise::Noise;
use range::range_noise_refusal;
use recipe::Tuning;
use refusals::{Refusal, refuse};

// The only side of tiles that a range of noise may be asked for.
const RANGE_SIDE: usize = 16;

// 22, for any other side.
#[tactic(auto, unfolding(crate::specs::Refusals::narrow_refusal))]
fn narrow_refusal(shape: Shape) -> Result<(), Refusal>
    ensures { answer_of result ≡ narrow_refusal shape }
{
    refuse(Refusal::Side, shape.side != RANGE_SIDE)
}

// Tests 1 to 3, and 22.
#[tactic(auto, using(refusals::specs::RefusedLaws::refuses, refusals::specs::RefusedLaws::stopped, refusals::specs::RefusedLaws::continued), unfolding(refusals::specs::Tests::first, crate::specs::Refusals::range_frame_tests))]
fn frame_refusal(shape: Shape, reference: usize) -> Result<(), Refusal>
    ensures { answer_of result ≡ first (range_frame_tests shape reference) }
{
    shape_refusal(shape)?;
    reference_refusal(shape, reference)?;
    narrow_refusal(shape)
}

// Tests 1 to 7, 22 and 23, with 6 on either output.
#[tactic(auto, using(refusals::specs::RefusedLaws::stopped, refusals::specs::RefusedLaws::continued, refusals::specs::RefusedLaws::refuses), unfolding(refusals::specs::Tests::first, crate::specs::Refusals::range_shape_tests))]
fn lengths_refusal(
    shape: Shape,
    reference: usize,
    samples: usize,
    vectors: usize,
    low: usize,
    high: usize,
    work: usize,
) -> Result<(), Refusal>
    ensures { answer_of result ≡ first (range_shape_tests shape reference samples vectors low high work) }
{
    frame_refusal(shape, reference)?;
    row_refusal(shape)?;
    length_refusal(Refusal::SampleLength, sample_length(shape), samples)?;
    length_refusal(Refusal::VectorLength, vector_length(shape), vectors)?;
    length_refusal(Refusal::OutputLength, output_length(shape), low)?;
    length_refusal(Refusal::OutputLength, output_length(shape), high)?;
    length_refusal(Refusal::WorkLength, work_length(shape), work)
}

// 24, for s not 0.
#[tactic(auto, unfolding(crate::specs::Refusals::filter_refusal))]
fn filter_refusal(s: u64) -> Result<(), Refusal>
    ensures { answer_of result ≡ filter_refusal s }
{
    refuse(Refusal::SpatialStrength, 0 < s)
}

// Tests 10, 18, 24 and 11.
#[tactic(auto, using(refusals::specs::RefusedLaws::refuses), unfolding(refusals::specs::Tests::first, crate::specs::Refusals::range_content_tests))]
fn content_refusal(shape: Shape, tuning: Tuning, samples: &[u16]) -> Result<(), Refusal>
    requires { Sampled shape samples.now }
    ensures { answer_of result ≡ first (range_content_tests shape tuning samples.now) }
{
    noise::strength_refusal(tuning.strength)?;
    noise::black_refusal(tuning.black)?;
    filter_refusal(tuning.spatial)?;
    admit_value::sample_refusal(shape, samples)
}

// All of them.
#[tactic(auto, using(refusals::specs::RefusedLaws::refuses, refusals::specs::RefusedLaws::stopped, refusals::specs::RefusedLaws::continued), unfolding(refusals::specs::Tests::first, crate::specs::Refusals::range_refusal))]
pub fn range_refusal(
    shape: Shape,
    reference: usize,
    lower: Noise,
    upper: Noise,
    tuning: Tuning,
    samples: &[u16],
    vectors: &[i32],
    low: &[u16],
    high: &[u16],
    work: &[i64],
) -> Result<(), Refusal>
    ensures { answer_of result ≡ range_refusal shape reference lower upper tuning samples.now vectors.now low.now high.now work.now }
{
    lengths_refusal(
        shape,
        reference,
        samples.len(),
        vectors.len(),
        low.len(),
        high.len(),
        work.len(),
    )?;
    range_noise_refusal(lower, upper)?;
    content_refusal(shape, tuning, samples)?;
    admit_value::vector_refusal(vectors)
}
