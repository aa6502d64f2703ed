// The tests 1 to 7 of a band of the merged frame, with 22, 23 and 27 before 4, and its lengths.
ghost use Rattle.std.specs.Prelude.{◌≡◌, ◌≤◌};
ghost use Rattle.admit_length.specs.Prelude.{first, Allowed, TileSide};
ghost use Rattle.admit_length.specs.Bands.{band_allowed, band_part_refusal, band_length, band_work_length, band_lengths, band_shape_tests, band_work_question};
ghost use Rattle.refusals.specs.Refused.{answer_of};

use crate::lengths::{length_refusal, sample_length, vector_length};
use crate::order::burst_refusal;
use crate::question::question_refusal;
use geometry::Shape;
use refusals::{Refusal, refuse};

// Rows `top` to `top + rows` - 1, where they begin and end between tiles and lie in the frame.
fn band_allowed(shape: Shape, top: usize, rows: usize) -> bool
    requires { TileSide shape.side }
    ensures { result ≡ band_allowed shape top rows }
{
    if top % shape.side != 0 {
        return false;
    }
    if rows % shape.side != 0 {
        return false;
    }
    if rows < 1 {
        return false;
    }
    if shape.height < rows {
        return false;
    }
    top <= shape.height - rows
}

// Refusal 27.
#[tactic(auto, unfolding(crate::specs::Bands::band_part_refusal))]
fn band_part_refusal(shape: Shape, top: usize, rows: usize) -> Result<(), Refusal>
    requires { TileSide shape.side }
    ensures { answer_of result ≡ band_part_refusal shape top rows }
{
    refuse(Refusal::Part, !band_allowed(shape, top, rows))
}

// Words of a band's output.
fn band_length(shape: Shape, rows: usize) -> usize
    requires { (Allowed shape) × (rows ≤ shape.height) }
    ensures { result ≡ band_length shape rows }
{
    rows * shape.width
}

// Words of work for a band: two rows of pairs of tiles.
fn band_work_length(shape: Shape) -> usize
    requires { (Allowed shape) × (TileSide shape.side) }
    ensures { result ≡ band_work_length shape }
{
    4 * shape.side * shape.width
}

// Tests 4 to 7.
#[tactic(auto, using(refusals::specs::RefusedLaws::refuses), unfolding(refusals::specs::Tests::first, crate::specs::Bands::band_lengths))]
fn band_lengths(
    shape: Shape,
    rows: usize,
    samples: usize,
    vectors: usize,
    output: usize,
    work: usize,
) -> Result<(), Refusal>
    requires { record { allowed : Allowed shape; sided : TileSide shape.side; inside : rows ≤ shape.height } }
    ensures { answer_of result ≡ first (band_lengths shape rows samples vectors output work) }
{
    length_refusal(Refusal::SampleLength, sample_length(shape), samples)?;
    length_refusal(Refusal::VectorLength, vector_length(shape), vectors)?;
    length_refusal(Refusal::OutputLength, band_length(shape, rows), output)?;
    length_refusal(Refusal::WorkLength, band_work_length(shape), work)
}

// Tests 1 to 3, 22, 23, 27, and 4 to 7.
#[tactic(auto, using(refusals::specs::RefusedLaws::stopped, refusals::specs::RefusedLaws::continued, refusals::specs::RefusedLaws::refuses), unfolding(refusals::specs::Tests::first, crate::specs::Bands::band_shape_tests))]
pub fn band_shape_refusal(
    shape: Shape,
    reference: usize,
    top: usize,
    rows: usize,
    samples: usize,
    vectors: usize,
    output: usize,
    work: usize,
) -> Result<(), Refusal>
    ensures { answer_of result ≡ first (band_shape_tests shape reference top rows samples vectors output work) }
{
    burst_refusal(shape, reference)?;
    band_part_refusal(shape, top, rows)?;
    band_lengths(shape, rows, samples, vectors, output, work)
}

// The length of a band's work area, or 0 where refusal 1, 2, 22 or 23 stands.
#[tactic(auto, using(refusals::specs::RefusedLaws::not_accepted), unfolding(crate::specs::Bands::band_work_question))]
pub fn band_work_question(shape: Shape) -> u64
    ensures { result ≡ band_work_question shape }
{
    match question_refusal(shape) {
        Ok(()) => band_work_length(shape) as u64,
        Err(_) => 0,
    }
}
