// What C passes by value, field by field as in include/stacker.h, and what it stands for.
#![tactic(auto)]

ghost use Rattle.std.specs.Prelude.{◌≡◌};
ghost use Rattle.c_types.specs.Parameters.{shape_of, of_frames, measured, iso_noise, tuned};

use geometry::{Shape, shaped};
use noise::{Curve, Noise};
use recipe::Tuning;

// Frames of one size, the index of the one that the others are merged on, the words of a row, and the black levels of the planes, in the pattern's order
// RGGB.
#[repr(C)]
#[derive(Clone, Copy)]
pub struct Burst {
    pub width: u64,
    pub height: u64,
    pub count: u64,
    pub reference: u64,
    pub row_length: u64,
    pub black: [u16; 4],
}

// The same without a reference, which is chosen.
#[repr(C)]
#[derive(Clone, Copy)]
pub struct Frames {
    pub width: u64,
    pub height: u64,
    pub count: u64,
    pub row_length: u64,
    pub black: [u16; 4],
}

// A burst's own curve.
#[repr(C)]
#[derive(Clone, Copy)]
pub struct BurstNoise {
    pub shot: f64,
    pub read: f64,
}

// The curve for ISO 100, and the burst's ISO number.
#[repr(C)]
#[derive(Clone, Copy)]
pub struct IsoNoise {
    pub iso: u32,
    pub shot: f64,
    pub read: f64,
}

// The strength, and the side of the tiles, which align takes as well.
#[repr(C)]
#[derive(Clone, Copy)]
pub struct MergeTuning {
    pub strength: u64,
    pub side: u64,
    pub spatial: u64,
}

// The burst that the frames are with frame 0 as the reference, which is not read.
pub fn of_frames(frames: Frames) -> Burst
    ensures { result ≡ of_frames frames }
{
    let black = frames.black;
    Burst {
        width: frames.width,
        height: frames.height,
        count: frames.count,
        reference: 0,
        row_length: frames.row_length,
        black,
    }
}

// A burst's shape, with tiles of a side.
pub fn shape_of(burst: Burst, side: u64) -> Shape
    ensures { result ≡ shape_of burst side }
{
    shaped(
        burst.width,
        burst.height,
        burst.count,
        side,
        burst.row_length,
    )
}

// The burst's own curve.
pub fn measured(noise: BurstNoise) -> Noise
    ensures { result ≡ measured noise }
{
    Noise::Measured(Curve {
        shot: noise.shot,
        read: noise.read,
    })
}

// The curve for ISO 100 at the burst's ISO number.
pub fn at_iso(noise: IsoNoise) -> Noise
    ensures { result ≡ iso_noise noise }
{
    let iso = noise.iso;
    let base = Curve {
        shot: noise.shot,
        read: noise.read,
    };
    Noise::Iso { iso, base }
}

// The strengths t and s, with the burst's black levels.
pub fn tuned(burst: Burst, tuning: MergeTuning) -> Tuning
    ensures { result ≡ tuned burst tuning }
{
    let black = burst.black;
    Tuning {
        strength: tuning.strength,
        black,
        spatial: tuning.spatial,
    }
}
