// Reading a frame.
ghost use Rattle.std.specs.Prelude.{◌≡◌, ◌≤◌};
ghost use Rattle.file_pgm.specs.Prelude.{length, pgm_header};
ghost use Rattle.refusals.specs.Refused.{answer_of};
ghost use Rattle.file_pgm.specs.Reading.{differs, formed, refusal_as, ReadsPgm};
ghost use Rattle.file_pgm.specs.Code.{size_in, answered};
ghost use Rattle.file_pgm.specs.Size.{pgm_size};

use crate::PgmRead;
use crate::header::digits::{digits, leading};
use crate::header::{header_length, header_text};
use crate::lengths::{file_length, sizes_allowed};
use crate::samples::{fill, raster_refusal};
use admit_length::lengths::length_refusal;
use refusals::{Refusal, refuse};

// The bytes start with another header than that of the size.
fn header_differs(width: usize, height: usize, bytes: &[u8]) -> bool
    requires { length (pgm_header width height) ≤ length bytes.now }
    ensures { result ≡ differs (pgm_header width height) bytes.now }
{
    let text = header_text(width, height);
    !bytes.starts_with(text.as_bytes())
}

// The bytes have the length and the header of a file of an allowed size.
fn formed(width: usize, height: usize, bytes: &[u8]) -> bool
    ensures { result ≡ formed width height bytes.now }
{
    if !sizes_allowed(width, height) {
        return false;
    }
    bytes.len() == file_length(width, height) && !header_differs(width, height, bytes)
}

// Tests 17, 6 and 11 of bytes that are read as a file of a size.
#[tactic(auto, using(refusals::specs::RefusedLaws::refuses), unfolding(refusals::specs::Tests::first, crate::specs::Reading::refusal_as, crate::specs::Reading::samples_as))]
fn read_refusal(width: usize, height: usize, bytes: &[u8], room: usize) -> Result<(), Refusal>
    ensures { answer_of result ≡ refusal_as width height bytes.now room }
{
    refuse(Refusal::PgmForm, !formed(width, height, bytes))?;
    length_refusal(Refusal::OutputLength, width * height, room)?;
    raster_refusal(bytes, header_length(width, height), width * height)
}

// A frame's width and height.
#[derive(Clone, Copy)]
struct Size {
    width: usize,
    height: usize,
}

// The size that the digits of a header write.
fn size_in(bytes: &[u8]) -> Size
    ensures { result ≡ size_in bytes.now }
{
    let width = leading(bytes, 3);
    let height = leading(bytes, 4 + digits(width));
    Size { width, height }
}

// What C is answered.
fn answer(read: Result<Size, Refusal>) -> PgmRead
    ensures { result ≡ answered read }
{
    match read {
        Ok(size) => PgmRead {
            refusal: 0,
            width: size.width as u64,
            height: size.height as u64,
        },
        Err(refusal) => PgmRead {
            refusal: refusal.number(),
            width: 0,
            height: 0,
        },
    }
}

// Nothing is stored before every test has passed.
fn read(bytes: &[u8], frame: &mut [u16]) -> Result<Size, Refusal>
    ensures { ReadsPgm bytes.now frame.old frame.new (answered result) }
{
    let size = size_in(bytes);
    read_refusal(size.width, size.height, bytes, frame.len())?;
    fill(bytes, header_length(size.width, size.height), frame);
    Ok(size)
}

// Reads a file into all of a frame.
pub fn read_pgm(bytes: &[u8], frame: &mut [u16]) -> PgmRead
    ensures { ReadsPgm bytes.now frame.old frame.new result }
{
    answer(read(bytes, frame))
}

// The size of bytes that have the form of a file. No sample is read.
fn formed_size(bytes: &[u8]) -> Result<Size, Refusal>
    ensures { answered result ≡ pgm_size bytes.now }
{
    let size = size_in(bytes);
    refuse(Refusal::PgmForm, !formed(size.width, size.height, bytes))?;
    Ok(size)
}

// The size of a file's frame, so that one can be made for the reading.
pub fn pgm_size(bytes: &[u8]) -> PgmRead
    ensures { result ≡ pgm_size bytes.now }
{
    answer(formed_size(bytes))
}
