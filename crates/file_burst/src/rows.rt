// The rows of samples, checked without a store.
ghost use Rattle.std.specs.Prelude.{◌≡◌};
ghost use Rattle.refusals.specs.Refused.{answer_of};
ghost use Rattle.file_burst.specs.Prelude.{drop, Allowed, number_of};
ghost use Rattle.file_burst.specs.Rows.{row, row_lines, frames_of};
ghost use Rattle.file_burst.specs.Passage.{rows_in, briefly};

use crate::lines::check_line;
use geometry::{SAMPLE_MOST, Shape};
use refusals::{Refusal, refuse};

// One row, up to the position past it: 15, 14, 11.
fn check_row(file: &[u8], at: usize, width: usize) -> Result<usize, Refusal>
    ensures { rows_in file.now result ≡ briefly (row width (drop at file.now)) }
{
    let line = check_line(file, at, width, SAMPLE_MOST as u64)?;
    refuse(Refusal::SampleValue, line.over)?;
    Ok(line.next)
}

// `count` rows, one after the other.
fn check_rows(file: &[u8], at: usize, count: usize, width: usize) -> Result<usize, Refusal>
    ensures { rows_in file.now result ≡ briefly (row_lines count width (drop at file.now)) }
{
    let mut next = at;
    for _ in 0..count {
        next = check_row(file, next, width)?;
    }
    Ok(next)
}

// The rows of all frames, up to the end of the file.
pub fn check_frames(file: &[u8], at: usize, shape: Shape) -> Result<(), Refusal>
    requires { Allowed shape }
    ensures { answer_of result ≡ number_of (frames_of shape (drop at file.now)) }
{
    let next = check_rows(file, at, shape.count * shape.height, shape.width)?;
    refuse(Refusal::FileEnd, next < file.len())
}
