// One value, the spaces after it, and the end of a line, each at a position of the file.
ghost use Rattle.std.specs.Prelude.{◌≡◌, ◌<◌, ◌+◌, length, get_or, IfSome};
ghost use Rattle.file_burst.specs.Lines.Prelude.{drop};
ghost use Rattle.file_burst.specs.Lines.Line.{digit_of, past_spaces, after_digits, item_of, has_lf};
ghost use Rattle.file_burst.specs.Lines.Scan.{digit_in, item_in, value_in, rest_in};

use crate::lines::{Scan, Value};

// A digit's number.
fn digit(byte: u8) -> Option<u64>
    ensures { (digit_in result ≡ digit_of byte) × IfSome result (λ d. d < 10) }
{
    match byte {
        b'0'..=b'9' => Some(u64::from(byte - b'0')),
        _ => None,
    }
}

// Values have this many digits at most.
const DIGITS_MOST: usize = 9;

// The position of the first byte that is no space.
fn past_spaces(file: &[u8], at: usize) -> usize
    ensures { drop result file.now ≡ past_spaces (drop at file.now) }
{
    for i in at..file.len() {
        if file[i] != b' ' {
            return i;
        }
    }
    file.len()
}

// Whether an LF follows.
pub fn has_lf(file: &[u8], at: usize) -> bool
    ensures { result ≡ has_lf (drop at file.now) }
{
    for i in at..file.len() {
        if file[i] == b'\n' {
            return true;
        }
    }
    false
}

// What follows `count` digits of a value: the byte at a position, which is no digit.
fn ended(file: &[u8], i: usize, count: usize, value: u64) -> Option<Scan>
    requires { i < length file.now }
    ensures { item_in file.now result ≡ after_digits count value (get_or file.now i 0) (drop (i + 1) file.now) }
{
    if count == 0 {
        return None;
    }
    match file[i] {
        b'\n' => Some(Scan::Last(Value { value, next: i + 1 })),
        b' ' => Some(Scan::More(Value {
            value,
            next: past_spaces(file, i + 1),
        })),
        _ => None,
    }
}

// The value at a position, and what ends it; none where none is well formed.
pub fn next_value(file: &[u8], at: usize) -> Option<Scan>
    ensures { item_in file.now result ≡ item_of (drop at file.now) }
{
    let mut value: u64 = 0;
    for i in at..file.len() {
        let count = i - at;
        match digit(file[i]) {
            None => {
                return ended(file, i, count, value);
            }
            Some(digit) => {
                if count == DIGITS_MOST {
                    return None;
                }
                value = value * 10 + digit;
            }
        }
    }
    None
}

// The value at a position where one is known to stand.
pub fn value_at(file: &[u8], at: usize) -> Value
    ensures { (result.value ≡ value_in (item_of (drop at file.now))) × (drop result.next file.now ≡ rest_in (item_of (drop at file.now))) }
{
    match next_value(file, at) {
        Some(Scan::Last(found)) => found,
        Some(Scan::More(found)) => found,
        None => Value {
            value: 0,
            next: file.len(),
        },
    }
}
