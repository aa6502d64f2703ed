// The reading of one frame.
ghost use Rattle.std.specs.Prelude.{◌≡◌, ◌≤◌};
ghost use Rattle.file_dng.specs.Prelude.{first, entries};
ghost use Rattle.refusals.specs.Refused.{answer_of};
ghost use Rattle.file_dng.specs.Refusals.{room_tests};
ghost use Rattle.file_dng.specs.Reading.{black_at, FrameRead};
ghost use Rattle.file_dng.specs.Code.{values_in, answered};

use crate::DngRead;
use crate::curve::{read_of, shot_of};
use crate::strip::{fill, strip_refusal};
use crate::tags::{BLACK_LEVEL, NOISE_PROFILE, has_black, strip_start, tag, tag_refusal};
use crate::tiff::bytes::{eight_at, short_at};
use crate::tiff::fields::field;
use admit_length::lengths::{length_refusal, output_length, sample_length};
use admit_length::order::frame_refusal;
use geometry::Shape;
use refusals::Refusal;

// Tests 1, 2, 3, 23 and 4.
#[tactic(auto, using(refusals::specs::RefusedLaws::stopped, refusals::specs::RefusedLaws::continued, refusals::specs::TestLaws::lone), unfolding(crate::specs::Refusals::room_tests))]
fn room_refusal(shape: Shape, frame: usize, room: usize) -> Result<(), Refusal>
    ensures { answer_of result ≡ first (room_tests shape frame room) }
{
    frame_refusal(shape, frame)?;
    length_refusal(Refusal::SampleLength, sample_length(shape), room)
}

// What a file gives beside its samples: the curve and the black levels, in the pattern's order.
#[derive(Clone, Copy)]
struct Values {
    shot: f64,
    read: f64,
    black: [u16; 4],
}

// What C is answered.
fn answer(read: Result<Values, Refusal>) -> DngRead
    ensures { result ≡ answered read }
{
    match read {
        Ok(values) => {
            let black = values.black;
            DngRead {
                refusal: 0,
                shot: values.shot,
                read: values.read,
                black,
            }
        }
        Err(refusal) => DngRead {
            refusal: refusal.number(),
            shot: 0.0,
            read: 0.0,
            black: [0, 0, 0, 0],
        },
    }
}

// A black level, in the pattern's order; 0 where the tag does not stand.
fn black_at(file: &[u8], index: usize) -> u16
    requires { index ≤ 4 }
    ensures { result ≡ black_at file.now (entries file.now) index }
{
    if has_black(file) {
        let found = field(file, tag(BLACK_LEVEL));
        return short_at(file, found.at + 2 * index) as u16;
    }
    0
}

// The curve and the black levels, untested.
fn values_of(file: &[u8]) -> Values
    ensures { result ≡ values_in file.now (entries file.now) }
{
    let profile = field(file, tag(NOISE_PROFILE));
    let shot = shot_of(eight_at(file, profile.at));
    let read = read_of(eight_at(file, profile.at + 8));
    let black0 = black_at(file, 0);
    let black1 = black_at(file, 1);
    let black2 = black_at(file, 2);
    let black3 = black_at(file, 3);
    Values {
        shot,
        read,
        black: [black0, black1, black2, black3],
    }
}

// Nothing is stored before every test has passed.
fn read(file: &[u8], shape: Shape, frame: usize, samples: &mut [u16]) -> Result<Values, Refusal>
    ensures { FrameRead file.now shape frame samples.old (answered result) samples.new }
{
    tag_refusal(file, shape)?;
    room_refusal(shape, frame, samples.len())?;
    let start = strip_start(file);
    let area = output_length(shape);
    strip_refusal(file, start, area)?;
    fill(file, start, shape, frame, samples);
    Ok(values_of(file))
}

// Reads the file into one frame of the lent samples.
pub fn read_dng(file: &[u8], shape: Shape, frame: usize, samples: &mut [u16]) -> DngRead
    ensures { FrameRead file.now shape frame samples.old result samples.new }
{
    answer(read(file, shape, frame, samples))
}
