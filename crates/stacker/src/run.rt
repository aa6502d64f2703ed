// Run: align, then merge.
ghost use Rattle.stacker.specs.Calls.{Ran};

use crate::{Alignment, accepted, refused};
use admit_call::run_refusal;
use geometry::Shape;
use noise::Noise;
use pipeline::run_levels;
use recipe::{Merge, Tuning};

// The vectors of a burst, and its merged frame by them.
pub fn run(
    shape: Shape,
    reference: usize,
    noise: Noise,
    tuning: Tuning,
    samples: &[u16],
    vectors: &mut [i32],
    output: &mut [u16],
    work: &mut [i64],
) -> Alignment
    ensures { Ran shape reference noise tuning samples.now vectors.old vectors.new output.old output.new work.old work.new result }
{
    let tested = run_refusal(
        shape, reference, noise, tuning, samples, &*vectors, &*output, &*work,
    );
    let levels = match tested {
        Ok(levels) => levels,
        Err(refusal) => return refused(refusal),
    };
    let m = Merge {
        shape,
        reference,
        shot: levels.shot,
        read: levels.read,
        tuning,
    };
    let totals = run_levels(m, samples, &mut *vectors, &mut *output, &mut *work);
    accepted(totals)
}
