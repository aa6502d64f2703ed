// Places of the copies' transforms from those of their high and low parts in double.
ghost use Rattle.std.specs.Prelude.{◌≡◌};
ghost use Rattle.tile_spatial.specs.Prelude.{nan, grid, cell, InDouble};
ghost use Rattle.tile_spectrum.specs.Lines.Doubles.{WholeDouble};
ghost use Rattle.tile_spatial.specs.Steps.{place_most, place_of};

use tile_spectrum::places::zipped;

// One place.
fn place(high: f64, low: f64) -> i64
    requires { (WholeDouble place_most high) × (WholeDouble place_most low) }
    ensures { result ≡ place_of high low }
{
    4096 * (high as i64) + low as i64
}

// All places of a pair.
pub fn places(high: &[[f64; 32]; 16], low: &[[f64; 32]; 16]) -> [[i64; 32]; 16]
    requires { (InDouble place_most high.now) × (InDouble place_most low.now) }
    ensures { result ≡ grid 16 32 (λ b l. place_of (cell nan high.now b l) (cell nan low.now b l)) }
{
    zipped(high, low, place)
}
