// Writing a frame.
ghost use Rattle.std.specs.Prelude.{◌≡◌};
ghost use Rattle.refusals.specs.Refused.{answer_of};
ghost use Rattle.file_pgm.specs.Writing.{write_refusal, WritesPgm};

use crate::header::put_header;
use crate::lengths::{file_length, sizes_allowed};
use crate::samples::{frame_refusal, put_frame};
use admit_length::lengths::length_refusal;
use refusals::{Refusal, answer, refuse};

// Tests 1, 6, 16 and 11. The frame's samples are looked at only where its length is right.
#[tactic(auto, using(refusals::specs::RefusedLaws::refuses), unfolding(refusals::specs::Tests::first, crate::specs::Writing::write_refusal))]
fn write_refusal(width: usize, height: usize, frame: &[u16], bytes: &[u8]) -> Result<(), Refusal>
    ensures { answer_of result ≡ write_refusal width height frame.now bytes.now }
{
    refuse(Refusal::Size, !sizes_allowed(width, height))?;
    length_refusal(Refusal::OutputLength, width * height, frame.len())?;
    length_refusal(Refusal::ByteLength, file_length(width, height), bytes.len())?;
    frame_refusal(frame)
}

// Nothing is stored before every test has passed.
fn write(width: usize, height: usize, frame: &[u16], bytes: &mut [u8]) -> Result<(), Refusal>
    ensures { WritesPgm width height frame.now bytes.old bytes.new (answer_of result) }
{
    write_refusal(width, height, frame, &*bytes)?;
    let start = put_header(&mut *bytes, width, height);
    put_frame(bytes, start, frame);
    Ok(())
}

// Writes the file of a frame over all of the bytes.
pub fn write_pgm(width: u64, height: u64, frame: &[u16], bytes: &mut [u8]) -> u64
    ensures { WritesPgm width height frame.now bytes.old bytes.new result }
{
    answer(write(width as usize, height as usize, frame, bytes))
}
