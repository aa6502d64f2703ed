// Merge: a burst and lent vectors to the output.
ghost use Rattle.refusals.specs.Refused.{answer_of};
ghost use Rattle.stacker.specs.Calls.{Merged};

use admit_call::run_refusal;
use geometry::Shape;
use noise::Noise;
use pipeline::clear;
use recipe::{Merge, Tuning};
use refusals::Refusal;

// The merged frame of a burst, by lent vectors.
pub fn merge(
    shape: Shape,
    reference: usize,
    noise: Noise,
    tuning: Tuning,
    samples: &[u16],
    vectors: &[i32],
    output: &mut [u16],
    work: &mut [i64],
) -> Result<(), Refusal>
    ensures { Merged shape reference noise tuning samples.now vectors.now output.old output.new work.old work.new (answer_of result) }
{
    let levels = run_refusal(
        shape, reference, noise, tuning, samples, vectors, &*output, &*work,
    )?;
    admit_value::vector_refusal(vectors)?;
    let m = Merge {
        shape,
        reference,
        shot: levels.shot,
        read: levels.read,
        tuning,
    };
    merge_frame::merge_frames(m, samples, vectors, &mut *output, &mut *work);
    clear(&mut *work);
    Ok(())
}
