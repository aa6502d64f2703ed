// The noise of a burst: its levels Ls and Lr, a tile's noise number V, and V' of its bins.
#![tactic(auto)]

pub mod level;
pub mod spatial;

ghost use Rattle.std.specs.Prelude.{◌≡◌, ◌≤◌};
ghost use Rattle.noise.specs.Prelude.{side16, side32, noise_number};
ghost use Rattle.refusals.specs.Refused.{answer_of};
ghost use Rattle.noise.specs.Levels.{levels_of, level_refusal, strength_refusal, black_refusal, spatial_refusal};
ghost use Rattle.noise.specs.Code.{levels_in};
ghost use Rattle.recipe.specs.Sides.{side_of};
ghost use Rattle.noise.specs.Range.{InRange};

use refusals::{Refusal, refuse};

// The variance of a sample of expected value x is shot * x + read.
#[derive(Clone, Copy)]
pub struct Curve {
    pub shot: f64,
    pub read: f64,
}

// A curve, or an ISO number with the curve for ISO 100.
#[derive(Clone, Copy)]
pub enum Noise {
    Measured(Curve),
    Iso { iso: u32, base: Curve },
}

// Ls and Lr.
#[derive(Clone, Copy)]
pub struct Levels {
    pub shot: u64,
    pub read: u64,
}

// Refusals 8 and 9, and the levels.
pub fn levels_of(noise: Noise) -> Result<Levels, Refusal>
    ensures { levels_in result ≡ levels_of noise }
{
    level::noise_refusal(noise)?;
    let curve = level::curve_of(noise);
    let shot = level::floor_1024(curve.shot);
    let read = level::floor_1024(curve.read);
    Ok(Levels { shot, read })
}

// Ls and Lr in a burst file, t, black levels and s: from 0 to these.
const SHOT_LEVEL_MOST: u64 = 65536;

const READ_LEVEL_MOST: u64 = 4194304;

const STRENGTH_MOST: u64 = 1024;

const BLACK_MOST: u16 = 255;

const SPATIAL_MOST: u64 = 256;

// Refusal 9 in a burst file.
#[tactic(auto, unfolding(crate::specs::Levels::level_refusal))]
pub fn level_refusal(ls: u64, lr: u64) -> Result<(), Refusal>
    ensures { answer_of result ≡ level_refusal ls lr }
{
    refuse(
        Refusal::NoiseLimit,
        SHOT_LEVEL_MOST < ls || READ_LEVEL_MOST < lr,
    )
}

// Refusal 10.
#[tactic(auto, unfolding(crate::specs::Levels::strength_refusal))]
pub fn strength_refusal(t: u64) -> Result<(), Refusal>
    ensures { answer_of result ≡ strength_refusal t }
{
    refuse(Refusal::Strength, STRENGTH_MOST < t)
}

// Refusal 18.
pub fn black_refusal(black: [u16; 4]) -> Result<(), Refusal>
    ensures { answer_of result ≡ black_refusal black }
{
    for level in &black {
        if BLACK_MOST < *level {
            return Err(Refusal::BlackLevel);
        }
    }
    Ok(())
}

// Refusal 24.
#[tactic(auto, unfolding(crate::specs::Levels::spatial_refusal))]
pub fn spatial_refusal(s: u64) -> Result<(), Refusal>
    ensures { answer_of result ≡ spatial_refusal s }
{
    refuse(Refusal::SpatialStrength, SPATIAL_MOST < s)
}

// V of a tile's root.
pub fn noise_number(t: u64, ls: u64, lr: u64, r: u64) -> u64
    requires { InRange t ls lr r }
    ensures { (result ≡ noise_number side16 t ls lr r) × (result ≤ 4402274369536) }
{
    t * (ls * r + 16 * lr) / 16
}

// V of the root of a tile of side 32: in sixteenths, where r counts thirty-seconds.
fn long_noise_number(t: u64, ls: u64, lr: u64, r: u64) -> u64
    requires { InRange t ls lr r }
    ensures { (result ≡ noise_number side32 t ls lr r) × (result ≤ 4402274369536) }
{
    t * (ls * r + 32 * lr) / 128
}

// V of a tile's root, for tiles of that side.
pub fn side_noise_number(side: usize, t: u64, ls: u64, lr: u64, r: u64) -> u64
    requires { InRange t ls lr r }
    ensures { (result ≡ noise_number (side_of side) t ls lr r) × (result ≤ 4402274369536) }
{
    if side == 32 {
        return long_noise_number(t, ls, lr, r);
    }
    noise_number(t, ls, lr, r)
}
