// The check of a whole file, and the reading of it.
ghost use Rattle.std.specs.Prelude.{◌≡◌};
ghost use Rattle.refusals.specs.Refused.{answer_of};
ghost use Rattle.file_burst.specs.Prelude.{false, length, drop, above, next_values};
ghost use Rattle.file_burst.specs.Reading.{file_check, refused_file, accepted_file, FileRead};
ghost use Rattle.file_burst.specs.Code.{answered};
ghost use Rattle.file_burst.specs.Size.{file_size};

use crate::FileAnswer;
use crate::head::{Header, read_head};
use crate::lines::value_at;
use crate::rows::check_frames;
use admit_length::lengths::{length_refusal, sample_length};
use refusals::Refusal;

// The first refusal but 4.
pub fn check(file: &[u8]) -> Result<(), Refusal>
    ensures { answer_of result ≡ file_check file.now }
{
    let head = read_head(file)?;
    check_frames(file, head.next, head.header.shape)
}

// The number of the first refusal but 4, or 0.
pub fn check_file(file: &[u8]) -> u64
    ensures { result ≡ file_check file.now }
{
    refusals::answer(check(file))
}

// The answer beside a refusal.
fn refused(number: u64) -> FileAnswer
    ensures { result ≡ refused_file number }
{
    FileAnswer {
        refusal: number,
        width: 0,
        height: 0,
        count: 0,
        reference: 0,
        shot_level: 0,
        read_level: 0,
        strength: 0,
    }
}

// The answer to an accepted file.
fn accepted(header: Header) -> FileAnswer
    ensures { result ≡ accepted_file header }
{
    let shape = header.shape;
    FileAnswer {
        refusal: 0,
        width: shape.width as u64,
        height: shape.height as u64,
        count: shape.count as u64,
        reference: header.reference as u64,
        shot_level: header.shot,
        read_level: header.read,
        strength: header.strength,
    }
}

// What C is answered.
fn answer(read: Result<Header, Refusal>) -> FileAnswer
    ensures { result ≡ answered read }
{
    match read {
        Ok(header) => accepted(header),
        Err(refusal) => refused(refusal.number()),
    }
}

// The values from a position on, none of them above 4095, into all of the samples.
fn fill(file: &[u8], at: usize, samples: &mut [u16])
    requires { above 4095 (next_values (length samples.old) (drop at file.now)) ≡ false }
    ensures { samples.new ≡ next_values (length samples.old) (drop at file.now) }
{
    let mut i = at;
    for sample in samples.iter_mut() {
        let found = value_at(file, i);
        *sample = found.value as u16;
        i = found.next;
    }
}

// Nothing is stored before the whole file is checked.
fn read(file: &[u8], samples: &mut [u16]) -> Result<Header, Refusal>
    ensures { FileRead file.now samples.old (answered result) samples.new }
{
    let head = read_head(file)?;
    let shape = head.header.shape;
    length_refusal(Refusal::SampleLength, sample_length(shape), samples.len())?;
    check_frames(file, head.next, shape)?;
    fill(file, head.next, samples);
    Ok(head.header)
}

// Reads a file into the samples.
pub fn read_file(file: &[u8], samples: &mut [u16]) -> FileAnswer
    ensures { FileRead file.now samples.old result samples.new }
{
    answer(read(file, samples))
}

// The seven values of the first two lines.
fn size(file: &[u8]) -> Result<Header, Refusal>
    ensures { answered result ≡ file_size file.now }
{
    let head = read_head(file)?;
    Ok(head.header)
}

// What the first two lines say, so that samples can be made for the reading: the first refusal of theirs, or 0 with the seven values.
pub fn file_size(file: &[u8]) -> FileAnswer
    ensures { result ≡ file_size file.now }
{
    answer(size(file))
}
