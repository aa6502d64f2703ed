// The tests of the calls, in the order in which they are made: align's, the residuals', those that merge and run share, and a band's.
#![tactic(auto)]

pub mod one_frame;

ghost use Rattle.std.specs.Prelude.{◌≡◌};
ghost use Rattle.admit_call.specs.Prelude.{first, levels_of};
ghost use Rattle.geometry.specs.Fits.{Sampled};
ghost use Rattle.refusals.specs.Refused.{answer_of};
ghost use Rattle.admit_call.specs.Refusals.{align_refusal, filter_side_refusal, content_tests, value_tests};
ghost use Rattle.admit_call.specs.Residuals.{residual_refusal};
ghost use Rattle.admit_call.specs.Admission.{tested_in, tested_as, RunTested, BandTested};

use geometry::Shape;
use noise::{Levels, Noise};
use recipe::Tuning;
use refusals::{Refusal, refuse};

// Tests 1 to 3, 22, 23, 4, 5, 7 and 11: those of align.
#[tactic(auto, using(refusals::specs::RefusedLaws::stopped, refusals::specs::RefusedLaws::continued, refusals::specs::RefusedLaws::refuses), unfolding(refusals::specs::Tests::first, crate::specs::Refusals::align_refusal))]
pub fn align_refusal(
    shape: Shape,
    reference: usize,
    samples: &[u16],
    vectors: &[i32],
    work: &[i64],
) -> Result<(), Refusal>
    ensures { answer_of result ≡ align_refusal shape reference samples.now vectors.now work.now }
{
    admit_length::order::align_shape_refusal(
        shape,
        reference,
        samples.len(),
        vectors.len(),
        work.len(),
    )?;
    admit_value::sample_refusal(shape, samples)
}

// Tests 1 to 3, 22, 23, 4 to 7, 11 and 12: those of the residuals of tiles, where 6 is of the residuals.
#[tactic(auto, using(refusals::specs::RefusedLaws::stopped, refusals::specs::RefusedLaws::continued, refusals::specs::RefusedLaws::refuses), unfolding(refusals::specs::Tests::first, crate::specs::Residuals::residual_refusal))]
pub fn residual_refusal(
    shape: Shape,
    reference: usize,
    samples: &[u16],
    vectors: &[i32],
    residuals: &[u64],
    work: &[i64],
) -> Result<(), Refusal>
    ensures { answer_of result ≡ residual_refusal shape reference samples.now vectors.now residuals.now work.now }
{
    admit_length::order::residual_shape_refusal(
        shape,
        reference,
        samples.len(),
        vectors.len(),
        residuals.len(),
        work.len(),
    )?;
    admit_value::sample_refusal(shape, samples)?;
    admit_value::vector_refusal(vectors)
}

// Refusal 25: the spatial filter is side 16's.
#[tactic(auto, unfolding(crate::specs::Refusals::filter_side_refusal))]
fn filter_side_refusal(side: usize, s: u64) -> Result<(), Refusal>
    ensures { answer_of result ≡ filter_side_refusal side s }
{
    refuse(Refusal::FilteredSide, side == 32 && 0 < s)
}

// Tests 10, 18, 24, 25 and 11.
#[tactic(auto, using(refusals::specs::RefusedLaws::refuses), unfolding(refusals::specs::Tests::first, crate::specs::Refusals::content_tests))]
fn content_refusal(shape: Shape, tuning: Tuning, samples: &[u16]) -> Result<(), Refusal>
    requires { Sampled shape samples.now }
    ensures { answer_of result ≡ first (content_tests shape tuning samples.now) }
{
    noise::strength_refusal(tuning.strength)?;
    noise::black_refusal(tuning.black)?;
    noise::spatial_refusal(tuning.spatial)?;
    filter_side_refusal(shape.side, tuning.spatial)?;
    admit_value::sample_refusal(shape, samples)
}

// Tests 8 to 10, 18, 24, 25 and 11.
fn value_refusal(
    shape: Shape,
    noise: Noise,
    tuning: Tuning,
    samples: &[u16],
) -> Result<Levels, Refusal>
    requires { Sampled shape samples.now }
    ensures { tested_in result ≡ tested_as (first (value_tests shape noise tuning samples.now)) (levels_of noise) }
{
    let levels = noise::levels_of(noise)?;
    content_refusal(shape, tuning, samples)?;
    Ok(levels)
}

// Tests 1 to 10, 18, 22 to 25 and 11: those that merge and run share.
pub fn run_refusal(
    shape: Shape,
    reference: usize,
    noise: Noise,
    tuning: Tuning,
    samples: &[u16],
    vectors: &[i32],
    output: &[u16],
    work: &[i64],
) -> Result<Levels, Refusal>
    ensures { RunTested shape reference noise tuning samples.now vectors.now output.now work.now (tested_in result) }
{
    admit_length::order::merge_shape_refusal(
        shape,
        reference,
        samples.len(),
        vectors.len(),
        output.len(),
        work.len(),
    )?;
    value_refusal(shape, noise, tuning, samples)
}

// Merge's tests with 27 before 4, where 6 and 7 are of a band's lengths. All samples and all vectors are tested, so that the bands of a burst are
// accepted or refused alike.
pub fn band_refusal(
    shape: Shape,
    reference: usize,
    noise: Noise,
    tuning: Tuning,
    top: usize,
    rows: usize,
    samples: &[u16],
    vectors: &[i32],
    output: &[u16],
    work: &[i64],
) -> Result<Levels, Refusal>
    ensures { BandTested shape reference noise tuning top rows samples.now vectors.now output.now work.now (tested_in result) }
{
    admit_length::bands::band_shape_refusal(
        shape,
        reference,
        top,
        rows,
        samples.len(),
        vectors.len(),
        output.len(),
        work.len(),
    )?;
    let levels = value_refusal(shape, noise, tuning, samples)?;
    admit_value::vector_refusal(vectors)?;
    Ok(levels)
}
