// The curve after ISO, its tests, and the floor of 1024 times a float.
ghost use Rattle.std.specs.Prelude.{◌≡◌};
ghost use Rattle.algebra.specs.Prelude.{T};
ghost use Rattle.refusals.specs.Refused.{answer_of};
ghost use Rattle.refusals.specs.Tests.{first};
ghost use Rattle.noise.specs.Curve.{at_iso, curve_of};
ghost use Rattle.noise.specs.Level.{invalid, floor1024};
ghost use Rattle.noise.specs.Within.{within};
ghost use Rattle.noise.specs.Levels.{invalid_curve, invalid_iso, invalid_noise, above_limits, noise_tests};

use crate::{Curve, Noise};
use refusals::{Refusal, refuse};

// alpha = iso / 100; alpha times shot; (alpha times alpha) times read.
fn at_iso(iso: u32, base: Curve) -> Curve
    ensures { result ≡ at_iso iso base }
{
    let alpha = (iso as f64) / 100.0;
    let shot = alpha * base.shot;
    let read = (alpha * alpha) * base.read;
    Curve { shot, read }
}

// The curve that a noise stands for.
pub fn curve_of(noise: Noise) -> Curve
    ensures { result ≡ curve_of noise }
{
    match noise {
        Noise::Measured(curve) => curve,
        Noise::Iso { iso, base } => at_iso(iso, base),
    }
}

// Negative, or not below infinity: a NaN is not, and -0.0 is not negative.
fn invalid_number(x: f64) -> bool
    ensures { result ≡ invalid x }
{
    x < 0.0 || !(x < 1.0 / 0.0)
}

// Either number is.
#[tactic(auto, unfolding(crate::specs::Levels::invalid_curve))]
fn invalid_curve(curve: Curve) -> bool
    ensures { result ≡ invalid_curve curve }
{
    invalid_number(curve.shot) || invalid_number(curve.read)
}

const ISO_LEAST: u32 = 25;

const ISO_MOST: u32 = 409600;

// Outside these.
#[tactic(auto, unfolding(crate::specs::Levels::invalid_iso))]
fn invalid_iso(iso: u32) -> bool
    ensures { result ≡ invalid_iso iso }
{
    iso < ISO_LEAST || ISO_MOST < iso
}

// The condition of refusal 8.
#[tactic(auto, unfolding(crate::specs::Levels::invalid_noise))]
pub fn invalid_noise(noise: Noise) -> bool
    ensures { result ≡ invalid_noise noise }
{
    match noise {
        Noise::Measured(curve) => invalid_curve(curve),
        Noise::Iso { iso, base } => invalid_iso(iso) || invalid_curve(base),
    }
}

const SHOT_MOST: f64 = 64.0;

const READ_MOST: f64 = 4096.0;

// The condition of refusal 9.
#[tactic(auto, unfolding(crate::specs::Levels::above_limits))]
pub fn above_limits(curve: Curve) -> bool
    ensures { result ≡ above_limits curve }
{
    curve.shot > SHOT_MOST || curve.read > READ_MOST
}

// Refusals 8 and 9.
#[tactic(auto, using(refusals::specs::RefusedLaws::refuses), unfolding(crate::specs::Levels::noise_tests, refusals::specs::Tests::first))]
pub fn noise_refusal(noise: Noise) -> Result<(), Refusal>
    ensures { answer_of result ≡ first (noise_tests noise) }
{
    refuse(Refusal::Noise, invalid_noise(noise))?;
    refuse(Refusal::NoiseLimit, above_limits(curve_of(noise)))
}

// By the sign, the exponent's field and the fraction's digits of x, which is from 0 to 4096.
pub fn floor_1024(x: f64) -> u64
    requires { T (within 4096 x) }
    ensures { result ≡ floor1024 x }
{
    let bits: u64 = f64::to_bits(x);
    let sign: u64 = bits >> 63;
    let exponent: u64 = (bits >> 52) & 0x7ff;
    let fraction: u64 = bits & 0xf_ffff_ffff_ffff;
    if sign != 0 {
        // x is -0.0, which is zero
        return 0;
    }
    if exponent < 1013 {
        // x is below 2^-10
        return 0;
    }
    // x is digits * 2^(exponent - 1075)
    let digits: u64 = fraction | 0x10_0000_0000_0000;
    digits >> (1065 - exponent)
}
