// A reader read to its end, where `Read::read_exact` does not tell how much there was from a read that failed; and why one failed, in words.
#![tactic(auto)]

ghost use Rattle.std.specs.Prelude.{◌≤◌, length, IfOk};
ghost use Rattle.file_input.specs.Reason.{BeforeNumber};

use std::fmt::{Display, Formatter, InlineText, Write};
use std::io::Read;
use std::{fmt, io};

// Reads until the input ends or the buffer is full: the number of bytes read. Which bytes came, no contract can say.
pub fn read_all<R: Read>(reader: &mut R, buffer: &mut [u8]) -> io::Result<usize>
    ensures { IfOk result (λ count. count ≤ length buffer.new) }
{
    let mut count = 0;
    while count < buffer.len() {
        match reader.read(&mut buffer[count..])? {
            0 => break,
            more => count += more,
        }
    }
    Ok(count)
}

// An error in the system's words, without the number that `Display` of `io::Error` writes after them.
#[derive(Clone, Copy)]
pub struct Reason(pub io::Error);

impl Display for Reason {
    fn fmt<W: Write>(&self, f: &mut Formatter<W>) -> fmt::Result {
        let text = InlineText::<320>::of(self.0);
        f.pad(before_number(text.as_str()))
    }
}

// The text up to where the number of a system's error begins, or all of it.
fn before_number(text: &str) -> &str
    ensures { BeforeNumber text.now result.now }
{
    match text.split_once(" (os error ") {
        Some((words, _)) => words,
        None => text,
    }
}
