// What the lent samples and vectors hold: refusals 11 and 12.
#![tactic(auto)]

ghost use Rattle.std.specs.Prelude.{◌≡◌, ◌+◌, ◌%◌, ◌≤◌};
ghost use Rattle.algebra.specs.Prelude.{length};
ghost use Rattle.refusals.specs.Refused.{answer_of};
ghost use Rattle.admit_value.specs.Bounds.{sample_refusal, vector_refusal};
ghost use Rattle.geometry.specs.Fits.{Sampled};
ghost use Rattle.admit_value.specs.Excess.{excess, row_above};

use geometry::Shape;
use refusals::Refusal;

// Samples are 0 to 4095.
const SAMPLE_VALUES: u16 = 4096;

// 0 where none of the 64 samples from `at` on is above 4095. A sum without branches becomes vector instructions.
fn excess(samples: &[u16], at: usize) -> u16
    requires { at + 64 ≤ length samples.now }
    ensures { result ≡ excess samples.now at }
{
    let mut sum: u16 = 0;
    for k in 0..64 {
        sum += samples[at + k] / SAMPLE_VALUES;
    }
    sum
}

// One of the `width` samples from `start` on is above 4095.
fn row_above(samples: &[u16], start: usize, width: usize) -> bool
    requires { (start + width ≤ length samples.now) × (width % 64 ≡ 0) }
    ensures { result ≡ row_above samples.now start width }
{
    for column in (0..width).step_by(64) {
        if excess(samples, start + column) > 0 {
            return true;
        }
    }
    false
}

// Refusal 11, row by row: spare words are not read.
pub fn sample_refusal(shape: Shape, samples: &[u16]) -> Result<(), Refusal>
    requires { Sampled shape samples.now }
    ensures { answer_of result ≡ sample_refusal shape samples.now }
{
    for row in 0..shape.count * shape.height {
        if row_above(samples, row * shape.pitch, shape.width) {
            return Err(Refusal::SampleValue);
        }
    }
    Ok(())
}

// Vector parts are -172 to 172.
const PART_LEAST: i32 = -172;

const PART_MOST: i32 = 172;

// Refusal 12.
pub fn vector_refusal(vectors: &[i32]) -> Result<(), Refusal>
    ensures { answer_of result ≡ vector_refusal vectors.now }
{
    for &part in vectors {
        if part < PART_LEAST || PART_MOST < part {
            return Err(Refusal::VectorPart);
        }
    }
    Ok(())
}
