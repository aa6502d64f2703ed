// Run with a reference that it chooses: the sharpest of the first frames.
ghost use Rattle.stacker.specs.Choosing.{Chosen};

use crate::{Choice, accepted, refused};
use admit_call::run_refusal;
use geometry::Shape;
use noise::Noise;
use pipeline::run_levels;
use recipe::{Merge, Tuning};
use sharpness::sharpest;

// The vectors of a burst on its sharpest frame, and its merged frame by them. Test 3 alone reads a reference, and 0 passes it.
pub fn run_sharpest(
    shape: Shape,
    noise: Noise,
    tuning: Tuning,
    samples: &[u16],
    vectors: &mut [i32],
    output: &mut [u16],
    work: &mut [i64],
) -> Choice
    ensures { Chosen shape noise tuning samples.now vectors.old vectors.new output.old output.new work.old work.new result }
{
    let tested = run_refusal(
        shape, 0, noise, tuning, samples, &*vectors, &*output, &*work,
    );
    let levels = match tested {
        Ok(levels) => levels,
        Err(refusal) => {
            return Choice {
                alignment: refused(refusal),
                reference: 0,
            };
        }
    };
    let reference = sharpest(shape, samples);
    let m = Merge {
        shape,
        reference,
        shot: levels.shot,
        read: levels.read,
        tuning,
    };
    let totals = run_levels(m, samples, &mut *vectors, &mut *output, &mut *work);
    Choice {
        alignment: accepted(totals),
        reference: reference as u64,
    }
}
