// What a program makes of a file before it prints.
ghost use Rattle.std.specs.Prelude.{◌≡◌, ◌≤◌};
ghost use Rattle.algebra.specs.Prelude.{[], length};
ghost use Rattle.report.specs.Program.{file_most};
ghost use Rattle.report.specs.declared.opening.Unread.TheVariants.{Refused};
ghost use Rattle.report.specs.Inner.{room, unread_text, Opens};

use crate::sizes::{FRAME, FRAME_SIDE, TEXT_ROOM};
use file_burst::head::{Header, read_head};
use file_burst::{check, read_file};
use printing::Text;
use refusals::Refusal;

// Why a file is not read: its length or the size of its frames, or a refusal.
#[derive(Clone, Copy)]
pub enum Unread {
    TooLarge,
    Refused(Refusal),
}

impl From<Refusal> for Unread {
    ghost from_gives = { λ refusal unread. unread ≡ Refused refusal };

    fn from(refusal: Refusal) -> Unread {
        Unread::Refused(refusal)
    }
}

impl Unread {
    // What the programs print for it, into an empty text.
    pub fn put(self, text: &mut Text<TEXT_ROOM>)
        requires { text.old ≡ [] }
        ensures { text.new ≡ unread_text self }
    {
        match self {
            Unread::TooLarge => text.put_bytes(b"too large\n"),
            Unread::Refused(refusal) => text.put_refusal(refusal.number()),
        }
    }
}

// The header of a file whose frames have the size that the programs take. A refusal comes before the size.
pub fn open_file(file: &[u8], samples: &mut [u16]) -> Result<Header, Unread>
    requires { (length file.now ≤ file_most) × (room 8 ≤ length samples.old) }
    ensures { Opens file.now samples.new result }
{
    let head = read_head(file)?;
    check(file)?;
    let shape = head.header.shape;
    if shape.width != FRAME_SIDE {
        return Err(Unread::TooLarge);
    }
    if shape.height != FRAME_SIDE {
        return Err(Unread::TooLarge);
    }
    let end = shape.count * FRAME;
    read_file(file, &mut samples[..end]);
    Ok(head.header)
}
