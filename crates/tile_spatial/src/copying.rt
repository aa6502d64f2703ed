// The copies of two planes side by side.
ghost use Rattle.std.specs.Prelude.{◌≡◌, ◌*◌, ◌≤◌, ◌-ℤ◌, ◌*ℤ◌};
ghost use Rattle.tile_spatial.specs.Prelude.{pos, AtMost, away, grid, cell, TileMost, copy_most};
ghost use Rattle.tile_spatial.specs.Filtering.{copy_in, Frames, SumMost, SamplePair, SumPair};

use tile_spectrum::places::zipped;

// A sample of the copy: T0 less the sum of P over N, in 1/256, to nearest, halves away from zero.
fn copy_part(frames: u64, t0: u16, sum: i64) -> i32
    requires { record { frames_fit : Frames frames; sample : t0 ≤ 4095; sum-most : SumMost frames sum } }
    ensures { (result ≡ away (pos t0 *ℤ pos (256 * frames) -ℤ sum) frames) × (AtMost copy_most result) }
{
    let whole = t0 as u64 * (256 * frames);
    rounding::round_away(whole as i64 - sum, frames) as i32
}

// The copies.
pub fn copy_pair(frames: u64, t0: &[[u16; 32]; 16], sum: &[[i64; 32]; 16]) -> [[i32; 32]; 16]
    requires { record { frames_fit : Frames frames; samples : SamplePair t0.now; sums : SumPair frames sum.now } }
    ensures { (result ≡ grid 16 32 (copy_in frames (cell 0 t0.now) (cell (pos 0) sum.now))) × (TileMost copy_most result) }
{
    zipped(
        t0,
        sum,
        |t: u16, s: i64| -> i32
            requires { record { frames_fit : Frames frames; sample : t ≤ 4095; sum-most : SumMost frames s } }
            ensures { (result ≡ away (pos t *ℤ pos (256 * frames) -ℤ s) frames) × (AtMost copy_most result) }
        { copy_part(frames, t, s) },
    )
}
