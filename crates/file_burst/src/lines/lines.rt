// A line of values at a position of the file.
ghost use Rattle.std.specs.Prelude.{◌≡◌, ◌||◌};
ghost use Rattle.file_burst.specs.Lines.Prelude.{false, ltb, drop};
ghost use Rattle.file_burst.specs.Lines.Line.{values_of, value_line};
ghost use Rattle.file_burst.specs.Lines.Scan.{line_in, ended_line, judged};

use crate::lines::scanning::{has_lf, next_value};
use crate::lines::{Line, Scan};
use refusals::Refusal;

// Some value so far, or this one, is above the bound.
fn or_above(already: bool, bound: u64, value: u64) -> bool
    ensures { result ≡ (already || ltb bound value) }
{
    already || bound < value
}

// The LF of a line has come, and `left` of its values have not.
fn end_line(left: usize, next: usize, over: bool) -> Result<Line, Refusal>
    ensures { result ≡ ended_line left next over }
{
    if left != 0 {
        return Err(Refusal::ValueLine);
    }
    Ok(Line { next, over })
}

// The line's values alone: a line without its LF counts as malformed.
fn scan_line(file: &[u8], at: usize, count: usize, bound: u64) -> Result<Line, Refusal>
    ensures { line_in file.now result ≡ judged false bound (values_of count (drop at file.now)) }
{
    let mut i = at;
    let mut over = false;
    for k in 0..count {
        match next_value(file, i) {
            None => {
                return Err(Refusal::ValueLine);
            }
            Some(Scan::Last(found)) => {
                return end_line(
                    count - k - 1,
                    found.next,
                    or_above(over, bound, found.value),
                );
            }
            Some(Scan::More(found)) => {
                over = or_above(over, bound, found.value);
                i = found.next;
            }
        }
    }
    Err(Refusal::ValueLine)
}

// A line of `count` values, and whether one is above the bound: 15, then 14. An LF is looked for only where the values end without one.
pub fn check_line(file: &[u8], at: usize, count: usize, bound: u64) -> Result<Line, Refusal>
    ensures { line_in file.now result ≡ judged false bound (value_line count (drop at file.now)) }
{
    match scan_line(file, at, count, bound) {
        Ok(line) => Ok(line),
        Err(refusal) => {
            if has_lf(file, at) {
                return Err(refusal);
            }
            Err(Refusal::FileEnd)
        }
    }
}
