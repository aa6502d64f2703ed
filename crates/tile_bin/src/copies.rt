// The Wiener step on the spatial filter's copy (request L13), one part of a bin at a time.
ghost use Rattle.std.specs.Prelude.{◌≡◌, ◌≤◌};
ghost use Rattle.tile_bin.specs.Prelude.{AtMost, side16, copy_quantized, copy_filtered, copy_bin_most, copy_part_most, spatial_most, spatial_gain_most};

use crate::parts::step;

// One part of the copy's bin in sixteenths: that part divided by 2^32.
fn quantized_part(b: i64) -> i64
    requires { AtMost copy_bin_most b }
    ensures { (result ≡ copy_quantized side16 b) × (AtMost copy_part_most result) }
{
    rounding::round_away_32(b)
}

// One part of the step at V', from that part b of the bin and the other part c.
pub fn filtered_part(noise: u64, b: i64, c: i64) -> i64
    requires { record { noise-most : noise ≤ spatial_most; part : AtMost copy_bin_most b; other : AtMost copy_bin_most c } }
    ensures { (result ≡ copy_filtered side16 noise b c) × (AtMost spatial_gain_most result) }
{
    step(noise, quantized_part(b), quantized_part(c))
}
