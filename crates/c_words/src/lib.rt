// What a refusal's number says in words, and the version of the calls.
#![tactic(auto)]

mod table;

ghost use Rattle.std.specs.Prelude.{◌≡◌};
ghost use Rattle.algebra.specs.Prelude.{length, get_or};
ghost use Rattle.c_words.specs.Words.{words_of, padded, TextPut, version_number};

use crate::table::words_of;

// The version of the calls, three digits to each of minor and patch.
pub fn version() -> u64
    ensures { result ≡ version_number }
{
    1000000
}

// A byte of a text; 0 past its end.
fn byte_of(text: &[u8], at: usize) -> u8
    ensures { result ≡ get_or text.now at 0 }
{
    if at < text.len() {
        return text[at];
    }
    0
}

// Stores a text, and zeros behind it. By `copy_from_slice` the archive would ask for memmove.
fn store(text: &[u8], buffer: &mut [u8])
    ensures { buffer.new ≡ padded (length buffer.old) text.now }
{
    for i in 0..buffer.len() {
        buffer[i] = byte_of(text, i);
    }
}

// The words of a number into a lent buffer that has room for them, with zeros behind them; answers how many bytes they are.
pub fn refusal_words(number: u64, text: &mut [u8]) -> u64
    ensures { TextPut (words_of number) text.old text.new result }
{
    let words = words_of(number).as_bytes();
    if words.len() <= text.len() {
        store(words, &mut *text);
    }
    words.len() as u64
}
