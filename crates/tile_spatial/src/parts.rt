// The high and low parts of the copies: a sample is 4096 times its high part and its low part, and both are small enough for differences of samples.
ghost use Rattle.std.specs.Prelude.{◌≡◌};
ghost use Rattle.tile_spatial.specs.Prelude.{pos, AtMost, grid, cell, TileMost, difference_most, copy_most};
ghost use Rattle.tile_spatial.specs.Steps.{high_of, low_of};

use tile_spectrum::places::mapped;

// The high part, rounded down.
fn high(c: i32) -> i16
    requires { AtMost copy_most c }
    ensures { result ≡ high_of c }
{
    (c >> 12) as i16
}

// The low part, from 0 to 4095.
fn low(c: i32) -> i16
    requires { AtMost copy_most c }
    ensures { result ≡ low_of c }
{
    (c - 4096 * (c >> 12)) as i16
}

// The high parts of a pair.
pub fn highs(c: &[[i32; 32]; 16]) -> [[i16; 32]; 16]
    requires { TileMost copy_most c.now }
    ensures { (result ≡ grid 16 32 (λ y l. high_of (cell (pos 0) c.now y l))) × (TileMost difference_most result) }
{
    mapped(c, high)
}

// The low parts of a pair.
pub fn lows(c: &[[i32; 32]; 16]) -> [[i16; 32]; 16]
    requires { TileMost copy_most c.now }
    ensures { (result ≡ grid 16 32 (λ y l. low_of (cell (pos 0) c.now y l))) × (TileMost difference_most result) }
{
    mapped(c, low)
}
