// The low and high frames where the noise is known only as a range (request L14): definitions and laws, and the tests of the two noises.
#![tactic(auto)]

ghost use Rattle.std.specs.Prelude.{◌≡◌};
ghost use Rattle.range.specs.Prelude.{first};
ghost use Rattle.refusals.specs.Refused.{answer_of};
ghost use Rattle.range.specs.Crossed.{crossed, range_noise_tests};

use noise::level::{above_limits, curve_of, invalid_noise};
use noise::{Curve, Noise};
use refusals::{Refusal, refuse};

// The condition of refusal 26.
fn crossed(lower: Curve, upper: Curve) -> bool
    ensures { result ≡ crossed lower upper }
{
    upper.shot < lower.shot || upper.read < lower.read
}

// Refusals 8, 9 and 26 of a lower and an upper noise.
#[tactic(auto, using(refusals::specs::RefusedLaws::refuses), unfolding(refusals::specs::Tests::first, crate::specs::Crossed::range_noise_tests))]
pub fn range_noise_refusal(lower: Noise, upper: Noise) -> Result<(), Refusal>
    ensures { answer_of result ≡ first (range_noise_tests lower upper) }
{
    refuse(Refusal::Noise, invalid_noise(lower) || invalid_noise(upper))?;
    let low = curve_of(lower);
    let high = curve_of(upper);
    refuse(Refusal::NoiseLimit, above_limits(low) || above_limits(high))?;
    refuse(Refusal::NoiseRange, crossed(low, high))
}
