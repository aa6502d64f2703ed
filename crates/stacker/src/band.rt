// A band of the merged frame: a burst and lent vectors to the output's rows between two rows of tiles.
ghost use Rattle.std.specs.Prelude.{◌≡◌};
ghost use Rattle.stacker.specs.Prelude.{length, scene_of, merged};
ghost use Rattle.refusals.specs.Refused.{answer_of};
ghost use Rattle.stacker.specs.Bands.{band, Banded};
ghost use Rattle.stacker.specs.BandReady.{BandLent};

use admit_call::band_refusal;
use geometry::Shape;
use noise::Noise;
use pipeline::clear;
use recipe::{Merge, Tuning};
use refusals::Refusal;

// The rows of a band that has passed the tests. A row of tiles has `side` rows of the frame.
fn band_rows(
    m: Merge,
    top: usize,
    rows: usize,
    samples: &[u16],
    vectors: &[i32],
    output: &mut [u16],
    work: &mut [i64],
)
    requires { BandLent m top rows samples.now vectors.now (length output.old) (length work.old) }
    ensures { output.new ≡ band m.shape.width top rows (merged (scene_of m samples.now vectors.now)) }
{
    let side = m.shape.side;
    let first = top / side;
    let last = (top + rows) / side;
    merge_frame::merge_rows(m, samples, vectors, first, last, &mut *output, &mut *work);
}

// Rows `top` to `top + rows` - 1 of the merged frame of a burst, by lent vectors, into an output of just these rows.
pub fn merge_band(
    shape: Shape,
    reference: usize,
    noise: Noise,
    tuning: Tuning,
    top: usize,
    rows: usize,
    samples: &[u16],
    vectors: &[i32],
    output: &mut [u16],
    work: &mut [i64],
) -> Result<(), Refusal>
    ensures { Banded shape reference noise tuning top rows samples.now vectors.now output.old output.new work.old work.new (answer_of result) }
{
    let levels = band_refusal(
        shape, reference, noise, tuning, top, rows, samples, vectors, &*output, &*work,
    )?;
    let m = Merge {
        shape,
        reference,
        shot: levels.shot,
        read: levels.read,
        tuning,
    };
    band_rows(m, top, rows, samples, vectors, &mut *output, &mut *work);
    clear(&mut *work);
    Ok(())
}
