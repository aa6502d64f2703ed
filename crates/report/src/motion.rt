// What `motion` prints.
ghost use Rattle.std.specs.Prelude.{◌≡◌, ◌++◌, ◌+◌, ◌*◌, ◌≤◌};
ghost use Rattle.report.specs.Prelude.{[], length};
ghost use Rattle.report.specs.Inner.{text_room, vector_room, work_room, burst_of, Taken, AlignedAs};
ghost use Rattle.report.specs.Motion.{frame_line, frame_lines, motion_of};

use crate::sizes::{PARTS, TEXT_ROOM, VECTOR_ROOM, WORK_ROOM};
use crate::text::Program;
use align_burst::burst::align_frames;
use file_burst::head::Header;
use geometry::vectors::other_frame;
use printing::Text;
use report_tally::{farthest, still_tiles};

// The program `motion`.
pub struct Motion;

impl Program for Motion {
    ghost printed = { motion_of };

    fn put_burst(header: Header, samples: &[u16], text: &mut Text<TEXT_ROOM>) {
        let mut vectors = [0i32; VECTOR_ROOM];
        let mut work = [0i64; WORK_ROOM];
        put_aligned(text, header, samples, &mut vectors, &mut work);
    }
}

// The line of one frame: five numbers of at most 21 bytes.
fn put_frame(text: &mut Text<TEXT_ROOM>, frame: usize, vectors: &[i32], residual: u64)
    requires { length text.old + 105 ≤ text_room }
    ensures line { text.new ≡ text.old ++ frame_line frame vectors.now residual }
    ensures short { length text.new ≤ length text.old + 105 }
{
    let line = [
        frame as u64,
        (vectors.len() / 2) as u64,
        still_tiles(vectors),
        farthest(vectors),
        residual,
    ];
    text.put_numbers(&line);
}

// The lines of all other frames.
fn put_frames(
    text: &mut Text<TEXT_ROOM>,
    reference: usize,
    vectors: &[i32],
    residuals: [u64; 7],
    others: usize,
)
    requires { record { few : others ≤ 7; vectors_room : vector_room others ≤ length vectors.now; text-room : length text.old + 105 * 7 ≤ text_room } }
    ensures { text.new ≡ text.old ++ frame_lines reference (vector_room 1) vectors.now residuals others }
{
    for k in 0..others {
        let from = PARTS * k;
        let end = from + PARTS;
        let frame = other_frame(reference, k);
        put_frame(&mut *text, frame, &vectors[from..end], residuals[k]);
    }
}

// The vectors and the sums of finest residuals, by what align does once its tests have passed: the file check has made them.
fn align_burst(header: Header, samples: &[u16], vectors: &mut [i32], work: &mut [i64]) -> [u64; 7]
    requires { record { taken : Taken header samples.now; vectors_room : length vectors.old ≡ vector_room 7; work-room : length work.old ≡ work_room } }
    ensures { AlignedAs header samples.now vectors.new result }
{
    let shape = header.shape;
    let end = PARTS * (shape.count - 1);
    let totals = align_frames(shape, header.reference, samples, &mut vectors[..end], work);
    totals.residuals
}

// The names, and the lines of the burst's alignment, into an empty text.
fn put_aligned(
    text: &mut Text<TEXT_ROOM>,
    header: Header,
    samples: &[u16],
    vectors: &mut [i32],
    work: &mut [i64],
)
    requires { record { taken : Taken header samples.now; vectors_room : length vectors.old ≡ vector_room 7; work-room : length work.old ≡ work_room; empty : text.old ≡ [] } }
    ensures { text.new ≡ motion_of (burst_of header samples.now) }
{
    let residuals = align_burst(header, samples, &mut *vectors, work);
    text.put_bytes(b"frame tiles still far residual\n");
    let others = header.shape.count - 1;
    let end = PARTS * others;
    put_frames(text, header.reference, &vectors[..end], residuals, others);
}
