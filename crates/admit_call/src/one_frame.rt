// The tests of the call that aligns one other frame.
ghost use Rattle.std.specs.Prelude.{◌≡◌};
ghost use Rattle.refusals.specs.Refused.{answer_of};
ghost use Rattle.admit_call.specs.OneFrame.{align_frame_refusal};

use admit_length::one_frame::align_frame_shape_refusal;
use geometry::Shape;
use refusals::Refusal;

// Tests 1 to 3, 22, 23, 27, 4, 5, 7 and 11. All samples are tested, as by align.
#[tactic(auto, using(refusals::specs::RefusedLaws::stopped, refusals::specs::RefusedLaws::continued, refusals::specs::RefusedLaws::refuses), unfolding(refusals::specs::Tests::first, crate::specs::OneFrame::align_frame_refusal))]
pub fn align_frame_refusal(
    shape: Shape,
    reference: usize,
    other: usize,
    samples: &[u16],
    vectors: &[i32],
    work: &[i64],
) -> Result<(), Refusal>
    ensures { answer_of result ≡ align_frame_refusal shape reference other samples.now vectors.now work.now }
{
    align_frame_shape_refusal(
        shape,
        reference,
        other,
        samples.len(),
        vectors.len(),
        work.len(),
    )?;
    admit_value::sample_refusal(shape, samples)
}
