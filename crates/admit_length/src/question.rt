// The length question of the capture station.
ghost use Rattle.std.specs.Prelude.{◌≡◌};
ghost use Rattle.admit_length.specs.Prelude.{first, Allowed, TileSide};
ghost use Rattle.admit_length.specs.Question.{length_tested, question_tests, length_question};
ghost use Rattle.refusals.specs.Refused.{answer_of};

use crate::lengths::{output_length, sample_length, vector_length, work_length};
use crate::order::shape_refusal;
use admit_size::{row_refusal, side_refusal};
use geometry::{Shape, shaped};
use refusals::Refusal;

// The length that refusal `number` tests, from 4 to 7; else 0.
fn length_tested(shape: Shape, number: u64) -> u64
    requires { (Allowed shape) × (TileSide shape.side) }
    ensures { result ≡ length_tested shape number }
{
    match number {
        4 => sample_length(shape) as u64,
        5 => vector_length(shape) as u64,
        6 => output_length(shape) as u64,
        7 => work_length(shape) as u64,
        _ => 0,
    }
}

// Tests 1, 2, 22 and 23, which let the lengths be worked out.
#[tactic(auto, using(refusals::specs::RefusedLaws::refuses, refusals::specs::RefusedLaws::stopped, refusals::specs::RefusedLaws::continued), unfolding(refusals::specs::Tests::first, crate::specs::Question::question_tests))]
pub fn question_refusal(shape: Shape) -> Result<(), Refusal>
    ensures { answer_of result ≡ first (question_tests shape) }
{
    shape_refusal(shape)?;
    side_refusal(shape)?;
    row_refusal(shape)
}

// The length that refusal `number` tests, or 0 where refusal 1, 2, 22 or 23 stands.
#[tactic(auto, using(refusals::specs::RefusedLaws::not_accepted), unfolding(crate::specs::Question::length_question))]
pub fn length_question(
    width: u64,
    height: u64,
    count: u64,
    side: u64,
    pitch: u64,
    number: u64,
) -> u64
    ensures { result ≡ length_question width height count side pitch number }
{
    let shape = shaped(width, height, count, side, pitch);
    match question_refusal(shape) {
        Ok(()) => length_tested(shape, number),
        Err(_) => 0,
    }
}
