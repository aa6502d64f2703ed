// Range: a burst, lent vectors and a noise that is known only between two curves to a low and a high frame.
ghost use Rattle.std.specs.Prelude.{◌≡◌};
ghost use Rattle.refusals.specs.Refused.{answer_of};
ghost use Rattle.stacker.specs.Prelude.{true, length, merge_of};
ghost use Rattle.range_frame.specs.Ready.{FramesRanged};
ghost use Rattle.stacker.specs.Ranged.{Ranged};
ghost use Rattle.stacker.specs.RangedLaws.{FramesLent};

use admit_range::range_refusal;
use geometry::Shape;
use merge_frame::merge_frames;
use noise::{Levels, Noise, levels_of};
use pipeline::clear;
use range_frame::range_frames;
use range_tiles::Upper;
use recipe::{Merge, Tuning};
use refusals::Refusal;

// A merge with the levels of a noise, which are 0 where its tests refuse it.
fn merge_of(shape: Shape, reference: usize, noise: Noise, tuning: Tuning) -> Merge
    ensures { result ≡ merge_of shape reference noise tuning }
{
    let levels = levels_of(noise).unwrap_or(Levels { shot: 0, read: 0 });
    Merge {
        shape,
        reference,
        shot: levels.shot,
        read: levels.read,
        tuning,
    }
}

fn same_levels(m: Merge, upper: Upper) -> bool
    ensures { result ≡ true → (m.shot ≡ upper.shot) × (m.read ≡ upper.read) }
{
    m.shot == upper.shot && m.read == upper.read
}

// By `copy_from_slice` the archive would ask for memmove.
fn copy(frame: &[u16], over: &mut [u16])
    requires { length over.old ≡ length frame.now }
    ensures { over.new ≡ frame.now }
{
    for i in 0..over.len() {
        over[i] = frame[i];
    }
}

// Both frames, of input that has passed the tests. Where the levels are equal both are the merge, which is made once.
fn frames(
    m: Merge,
    upper: Upper,
    samples: &[u16],
    vectors: &[i32],
    low: &mut [u16],
    high: &mut [u16],
    work: &mut [i64],
)
    requires { FramesLent m upper samples.now vectors.now (length low.old) (length high.old) (length work.old) }
    ensures { FramesRanged m upper samples.now vectors.now low.new high.new }
{
    if same_levels(m, upper) {
        merge_frames(m, samples, vectors, &mut *low, &mut *work);
        copy(&*low, &mut *high);
        return;
    }
    range_frames(
        m, upper, samples, vectors, &mut *low, &mut *high, &mut *work,
    );
}

// The low and the high frame of a burst, by lent vectors.
pub fn range(
    shape: Shape,
    reference: usize,
    lower: Noise,
    upper: Noise,
    tuning: Tuning,
    samples: &[u16],
    vectors: &[i32],
    low: &mut [u16],
    high: &mut [u16],
    work: &mut [i64],
) -> Result<(), Refusal>
    ensures { Ranged shape reference lower upper tuning samples.now vectors.now low.old low.new high.old high.new work.old work.new (answer_of result) }
{
    range_refusal(
        shape, reference, lower, upper, tuning, samples, vectors, &*low, &*high, &*work,
    )?;
    let m = merge_of(shape, reference, lower, tuning);
    let raised = merge_of(shape, reference, upper, tuning);
    let top = Upper {
        shot: raised.shot,
        read: raised.read,
    };
    frames(m, top, samples, vectors, &mut *low, &mut *high, &mut *work);
    clear(&mut *work);
    Ok(())
}
