// What `stack` prints.
ghost use Rattle.std.specs.Prelude.{◌≡◌};
ghost use Rattle.report.specs.Prelude.{[], length};
ghost use Rattle.report.specs.Program.{program_side};
ghost use Rattle.report.specs.Stack.{frame_text, frame_of, stack_of};
ghost use Rattle.report.specs.Inner.{room, vector_room, work_room, burst_of, Taken};

use crate::sizes::{FRAME, FRAME_SIDE, PARTS, TEXT_ROOM, VECTOR_ROOM, WORK_ROOM};
use crate::text::Program;
use file_burst::head::Header;
use pipeline::run_levels;
use printing::Text;
use recipe::{Merge, Tuning};

// The program `stack`.
pub struct Stack;

impl Program for Stack {
    ghost printed = { stack_of };

    fn put_burst(header: Header, samples: &[u16], text: &mut Text<TEXT_ROOM>) {
        let mut vectors = [0i32; VECTOR_ROOM];
        let mut output = [0u16; FRAME];
        let mut work = [0i64; WORK_ROOM];
        run_burst(header, samples, &mut vectors, &mut output, &mut work);
        put_merged(text, &output);
    }
}

// The names, the sizes and the rows of a frame, into an empty text.
fn put_merged(text: &mut Text<TEXT_ROOM>, samples: &[u16])
    requires long { length samples.now ≡ room 1 }
    requires empty { text.old ≡ [] }
    ensures { text.new ≡ frame_text program_side program_side samples.now }
{
    text.put_bytes(b"width height\n");
    text.put_numbers(&[FRAME_SIDE as u64, FRAME_SIDE as u64]);
    text.put_rows(samples, FRAME_SIDE, FRAME_SIDE);
}

// A run from the levels of the file, whose frame it leaves in the output. The vectors are those of at most seven frames.
fn run_burst(
    header: Header,
    samples: &[u16],
    vectors: &mut [i32],
    output: &mut [u16],
    work: &mut [i64],
)
    requires { record { taken : Taken header samples.now; vectors_room : length vectors.old ≡ vector_room 7; output_room : length output.old ≡ room 1; work-room : length work.old ≡ work_room } }
    ensures { (output.new ≡ frame_of (burst_of header samples.now)) × (length output.new ≡ room 1) }
{
    let shape = header.shape;
    let end = PARTS * (shape.count - 1);
    let black = [0u16; 4];
    let tuning = Tuning {
        strength: header.strength,
        black,
        spatial: 0,
    };
    let m = Merge {
        shape,
        reference: header.reference,
        shot: header.shot,
        read: header.read,
        tuning,
    };
    run_levels(m, samples, &mut vectors[..end], output, work);
}
