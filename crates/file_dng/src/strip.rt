// The samples of a DNG file's strip: refusal 11, and their storing.
ghost use Rattle.std.specs.Prelude.{◌≡◌, ◌+◌, ◌*◌, ◌%◌, ◌≤◌};
ghost use Rattle.algebra.specs.Prelude.{ltb, length};
ghost use Rattle.refusals.specs.Refused.{answer_of};
ghost use Rattle.refusals.specs.Some.{some};
ghost use Rattle.sequences.specs.Written.{written};
ghost use Rattle.file_dng.specs.Strip.Strip.{strip_sample, strip_refusal, filled_rows};
ghost use Rattle.file_dng.specs.Strip.Fits.{FrameFits};

use geometry::read::sample_index;
use geometry::{SAMPLE_MOST, Shape};
use refusals::Refusal;

// The bits that 64 samples have, the first at a place: above 4095 where a sample is. No branch, so that the loop becomes vector instructions.
fn word_bits(file: &[u8], from: usize) -> u16
    requires { from + 128 ≤ length file.now }
    ensures { some 64 (λ k. ltb 4095 (strip_sample file.now from k)) ≡ ltb 4095 result }
{
    let mut seen: u16 = 0;
    for k in 0..64 {
        let low = file[from + 2 * k] as u16;
        let high = file[from + 2 * k + 1] as u16;
        seen |= low + 256 * high;
    }
    seen
}

// Refusal 11.
pub fn strip_refusal(file: &[u8], start: usize, count: usize) -> Result<(), Refusal>
    requires { (start + 2 * count ≤ length file.now) × (count % 64 ≡ 0) }
    ensures { answer_of result ≡ strip_refusal file.now start count }
{
    for i in (0..count).step_by(64) {
        if word_bits(file, start + 2 * i) > SAMPLE_MOST {
            return Err(Refusal::SampleValue);
        }
    }
    Ok(())
}

// A row of the strip, from its place `first` on, into the lent samples from `at` on.
fn fill_row(file: &[u8], start: usize, first: usize, samples: &mut [u16], at: usize, width: usize)
    requires width_in_bounds { start + 2 * (first + width) ≤ length file.now }
    requires width_in_bounds_2 { at + width ≤ length samples.old }
    ensures { samples.new ≡ written samples.old at (λ column. strip_sample file.now start (first + column)) width }
{
    for i in 0..width {
        let low = file[start + 2 * (first + i)] as u16;
        let high = file[start + 2 * (first + i) + 1] as u16;
        samples[at + i] = low + 256 * high;
    }
}

// The strip's samples into one frame of the lent ones, row by row.
pub fn fill(file: &[u8], start: usize, shape: Shape, frame: usize, samples: &mut [u16])
    requires height_in_bounds { start + 2 * (shape.width * shape.height) ≤ length file.now }
    requires frame_fits { FrameFits shape frame (length samples.old) }
    ensures { samples.new ≡ filled_rows file.now start shape frame shape.height samples.old }
{
    for row in 0..shape.height {
        let at = sample_index(shape, frame, row, 0);
        fill_row(
            file,
            start,
            row * shape.width,
            &mut *samples,
            at,
            shape.width,
        );
    }
}
