// What each program prints for a file.
ghost use Rattle.std.specs.Prelude.{◌≡◌, ◌≤◌};
ghost use Rattle.report.specs.Prelude.{List, [], ℕ, FileBurst, length, take};
ghost use Rattle.report.specs.Program.{file_most, program_text};
ghost use Rattle.report.specs.Motion.{motion_text};
ghost use Rattle.report.specs.Stack.{stack_text};
ghost use Rattle.report.specs.Inner.{burst_of, Taken};

use crate::motion::Motion;
use crate::opening::{Unread, open_file};
use crate::sizes::{FILE_MOST, FILE_ROOM, FRAME, SAMPLE_ROOM, TEXT_ROOM};
use crate::stack::Stack;
use file_burst::head::Header;
use printing::Text;

// A program, by what it prints for a burst.
pub trait Program {
    ghost printed: { FileBurst → List ℕ };

    // Into an empty text.
    fn put_burst(header: Header, samples: &[u16], text: &mut Text<TEXT_ROOM>)
        requires taken { Taken header samples.now }
        requires empty { text.old ≡ [] }
        ensures { text.new ≡ printed (burst_of header samples.now) };
}

// What a program prints for a file that is not too long, into an empty text.
fn put_file<P: Program>(file: &[u8], text: &mut Text<TEXT_ROOM>)
    requires short { length file.now ≤ file_most }
    requires empty { text.old ≡ [] }
    ensures { text.new ≡ program_text P.printed file.now }
{
    let mut samples = [0u16; SAMPLE_ROOM];
    match open_file(file, &mut samples) {
        Err(unread) => unread.put(text),
        Ok(header) => {
            let shape = header.shape;
            let end = shape.count * FRAME;
            P::put_burst(header, &samples[..end], text);
        }
    }
}

// What a program prints for the first `count` bytes of an array that can hold a file that is too long. The text is lent: handed back by value it would stand
// on the stack once for each function that it passes.
fn put_text<P: Program>(file: &[u8; FILE_ROOM], count: usize, text: &mut Text<TEXT_ROOM>)
    ensures { text.new ≡ program_text P.printed (take count file.now) }
{
    text.clear();
    if count > FILE_MOST {
        Unread::TooLarge.put(&mut *text);
        return;
    }
    put_file::<P>(&file[..count], text);
}

// What `motion` prints for a file: the first `count` bytes of the array, which is longer than any file that is read. What the text held is gone.
pub fn motion_text(file: &[u8; FILE_ROOM], count: usize, text: &mut Text<TEXT_ROOM>)
    ensures { text.new ≡ motion_text (take count file.now) }
{
    put_text::<Motion>(file, count, text);
}

// What `stack` prints, likewise.
pub fn stack_text(file: &[u8; FILE_ROOM], count: usize, text: &mut Text<TEXT_ROOM>)
    ensures { text.new ≡ stack_text (take count file.now) }
{
    put_text::<Stack>(file, count, text);
}
