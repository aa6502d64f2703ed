// Residuals: a burst and lent vectors to the finest residual of each tile.
ghost use Rattle.refusals.specs.Refused.{answer_of};
ghost use Rattle.stacker.specs.Residuals.{ResidualsFound};

use admit_call::residual_refusal;
use align_measure::measure_frames;
use geometry::Shape;
use pipeline::clear;
use refusals::Refusal;

// The residual of every tile of every other frame at its lent vector, in the order of the vectors.
pub fn residuals(
    shape: Shape,
    reference: usize,
    samples: &[u16],
    vectors: &[i32],
    residuals: &mut [u64],
    work: &mut [i64],
) -> Result<(), Refusal>
    ensures { ResidualsFound shape reference samples.now vectors.now residuals.old residuals.new work.old work.new (answer_of result) }
{
    residual_refusal(shape, reference, samples, vectors, &*residuals, &*work)?;
    measure_frames(
        shape,
        reference,
        samples,
        vectors,
        &mut *residuals,
        &mut *work,
    );
    clear(&mut *work);
    Ok(())
}
