// Lines of values: put behind a text, or into a lent buffer from a place on, where a function answers the place after what it put.
ghost use Rattle.std.specs.Prelude.{◌≡◌, ◌++◌, ◌+◌, ◌*◌, ◌≤◌};
ghost use Rattle.printing.specs.Prelude.{length, take, drop};
ghost use Rattle.printing.specs.Lines.{value, number_line, sample_rows, refusal};
ghost use Rattle.printing.specs.Put.{Printed};

use crate::pieces::{put_byte, put_number};
use crate::text::Text;

// A value that `left` more follow on its line: at most 20 digits and a space or LF.
pub fn put_value(text: &mut [u8], at: usize, n: u64, left: usize) -> usize
    requires { at + 21 ≤ length text.old }
    ensures { (Printed text.old at (value n left) text.new result) × (result ≤ at + 21) }
{
    let next = put_number(&mut *text, at, n);
    if left == 0 {
        return put_byte(text, next, b'\n');
    }
    put_byte(text, next, b' ')
}

// The line of `count` samples, the first at `from`. A sample has at most five digits.
pub fn put_samples(text: &mut [u8], at: usize, samples: &[u16], from: usize, count: usize) -> usize
    requires { (from + count ≤ length samples.now) × (at + 6 * count + 21 ≤ length text.old) }
    ensures { (Printed text.old at (number_line (take count (drop from samples.now))) text.new result) × (result ≤ at + 6 * count) }
{
    let mut next = at;
    for k in 0..count {
        next = put_value(&mut *text, next, samples[from + k] as u64, count - (k + 1));
    }
    next
}

impl<const ROOM: usize> Text<ROOM> {
    // A value that `left` more follow on its line.
    pub fn put_value(&mut self, n: u64, left: usize)
        requires { length self.old + length (value n left) ≤ ROOM }
        ensures { self.new ≡ self.old ++ value n left }
    {
        self.put_number(n);
        self.put_byte(if left == 0 { b'\n' } else { b' ' });
    }

    // The line of the numbers.
    pub fn put_numbers(&mut self, numbers: &[u64])
        requires { length self.old + length (number_line numbers.now) ≤ ROOM }
        ensures { self.new ≡ self.old ++ number_line numbers.now }
    {
        for (k, number) in numbers.iter().enumerate() {
            self.put_value(*number, numbers.len() - (k + 1));
        }
    }

    // The line of the samples.
    pub fn put_samples(&mut self, samples: &[u16])
        requires { length self.old + length (number_line samples.now) ≤ ROOM }
        ensures { self.new ≡ self.old ++ number_line samples.now }
    {
        for (k, sample) in samples.iter().enumerate() {
            self.put_value(u64::from(*sample), samples.len() - (k + 1));
        }
    }

    // The rows of a frame.
    pub fn put_rows(&mut self, samples: &[u16], width: usize, height: usize)
        requires fit { height * width ≤ length samples.now }
        requires room { length self.old + length (sample_rows width height samples.now) ≤ ROOM }
        ensures { self.new ≡ self.old ++ sample_rows width height samples.now }
    {
        for row in 0..height {
            let from = row * width;
            self.put_samples(&samples[from..from + width]);
        }
    }

    // A refusal's line.
    pub fn put_refusal(&mut self, number: u64)
        requires { length self.old + length (refusal number) ≤ ROOM }
        ensures { self.new ≡ self.old ++ refusal number }
    {
        self.put_bytes(b"refused ");
        self.put_value(number, 0);
    }
}
