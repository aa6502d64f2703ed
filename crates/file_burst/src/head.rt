// The first two lines of a burst file: the names, and the seven values with their tests.
ghost use Rattle.std.specs.Prelude.{◌≡◌};
ghost use Rattle.refusals.specs.Refused.{answer_of};
ghost use Rattle.file_burst.specs.Head.Prelude.{drop, next_values};
ghost use Rattle.file_burst.specs.Head.Head.{first_line_refusal, header_of, header_refusal, head_of, head_in};

use crate::lines::{check_line, has_lf, value_at};
use admit_length::order::shape_refusal;
use admit_size::reference_refusal;
use geometry::Shape;
use noise::{level_refusal, strength_refusal};
use refusals::{Refusal, refuse};

// The seven values of a file's second line.
#[derive(Clone, Copy)]
pub struct Header {
    pub shape: Shape,
    pub reference: usize,
    pub shot: u64,
    pub read: u64,
    pub strength: u64,
}

// The first two lines: their values, and the position past them.
#[derive(Clone, Copy)]
pub struct Head {
    pub header: Header,
    pub next: usize,
}

// Refusals 15 and 13 of the first line.
fn first_line_refusal(file: &[u8]) -> Result<(), Refusal>
    ensures { answer_of result ≡ first_line_refusal file.now }
{
    refuse(Refusal::FileEnd, !has_lf(file, 0))?;
    let named = file.starts_with(b"width height count reference shot read strength\n");
    refuse(Refusal::FirstLine, !named)
}

// The seven values from a position on, where they are known to stand.
fn header_at(file: &[u8], at: usize) -> Header
    ensures { result ≡ header_of (next_values 7 (drop at file.now)) }
{
    let width = value_at(file, at);
    let height = value_at(file, width.next);
    let count = value_at(file, height.next);
    let reference = value_at(file, count.next);
    let shot = value_at(file, reference.next);
    let read = value_at(file, shot.next);
    let strength = value_at(file, read.next);
    Header {
        shape: geometry::shaped(width.value, height.value, count.value, 16, width.value),
        reference: reference.value as usize,
        shot: shot.value,
        read: read.value,
        strength: strength.value,
    }
}

// Refusals 1, 2, 3, 9 and 10 of the seven values.
#[tactic(auto, using(refusals::specs::RefusedLaws::refuses, refusals::specs::RefusedLaws::stopped, refusals::specs::RefusedLaws::continued), unfolding(refusals::specs::Tests::first, crate::specs::Head::Head::header_refusal))]
fn header_refusal(header: Header) -> Result<(), Refusal>
    ensures { answer_of result ≡ header_refusal header }
{
    shape_refusal(header.shape)?;
    reference_refusal(header.shape, header.reference)?;
    level_refusal(header.shot, header.read)?;
    strength_refusal(header.strength)
}

// The names, the seven values and their tests. Line 2 starts at byte 48.
pub fn read_head(file: &[u8]) -> Result<Head, Refusal>
    ensures { head_in file.now result ≡ head_of file.now }
{
    first_line_refusal(file)?;
    let line = check_line(file, 48, 7, 0)?;
    let header = header_at(file, 48);
    header_refusal(header)?;
    Ok(Head {
        header,
        next: line.next,
    })
}
