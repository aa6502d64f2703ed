// The Wiener step at one bin in double: Q from B, the quotients V/(|Q|² + V) and G, and whether the quotients leave a doubt. V and W = V·(1 + 2^-51) are given
// as doubles, and so are the parts of B. Each number but the quotients is a whole one, and each rounding to one is a sum with 1.5·2^52, from which that is taken
// off again. SIDE is 32, or else 16.
ghost use Rattle.std.specs.Prelude.{◌≡◌};
ghost use Rattle.tile_bin.specs.Prelude.{true, get_or, nan};
ghost use Rattle.floats.specs.QuotientLaws.{certain};
ghost use Rattle.tile_bin.specs.Doubles.{bits_of, nearest_whole, quantized_in, quotients_in, gains_in, Sure, real_gain_in};
ghost use Rattle.floats.specs.ProductLaws.{fraction};

use rounding::MIDDLE;

// 2^-24·(1 + 2^-52) and 2^-26·(1 + 2^-52): the last bits make a half more than a half, so that it is rounded away from zero
const BY_2_24: f64 = 0.000000059604644775390638234889800848443;

const BY_2_26: f64 = 0.00000001490116119384765955872245021211;

// 1 − 2^-49: a quotient times this lies below the exact one
const SLIGHTLY_LESS: f64 = 0.99999999999999822364316059974954;

// The whole number nearest to x.
pub fn nearest_whole(x: f64) -> f64
    ensures { result ≡ nearest_whole x }
{
    x + MIDDLE - MIDDLE
}

// One over the side's quantum, slightly more.
fn by_quantum<const SIDE: usize>() -> f64
    ensures { result ≡ fraction (bits_of SIDE) }
{
    if SIDE == 32 { BY_2_26 } else { BY_2_24 }
}

// One part of Q, from that part of B.
pub fn quantized<const SIDE: usize>(b: f64) -> f64
    ensures { result ≡ quantized_in SIDE b }
{
    nearest_whole(b * by_quantum::<SIDE>())
}

// The quotients of both parts at a bin, slightly too large, from those of B.
fn quotients<const SIDE: usize>(v: f64, w: f64, a: f64, b: f64) -> [f64; 2]
    ensures { result ≡ quotients_in SIDE v w a b }
{
    let q = quantized::<SIDE>(a);
    let r = quantized::<SIDE>(b);
    let g = w / (q * q + r * r + v);
    [q * g, r * g]
}

// Both parts of G at a bin, from those of B.
pub fn gains<const SIDE: usize>(v: f64, w: f64, a: f64, b: f64) -> [f64; 2]
    ensures { result ≡ gains_in SIDE v w a b }
{
    let x = quotients::<SIDE>(v, w, a, b);
    [nearest_whole(x[0]), nearest_whole(x[1])]
}

// G at a bin that is real.
pub fn real_gain<const SIDE: usize>(v: f64, w: f64, a: f64) -> f64
    ensures { result ≡ real_gain_in SIDE v w a }
{
    let g = gains::<SIDE>(v, w, a, 0.0);
    g[0]
}

// Whether a quotient and what is slightly less, on either side of the exact one, are rounded to one whole number.
pub fn no_doubt(x: f64) -> bool
    ensures { result ≡ certain x }
{
    x + MIDDLE == x * SLIGHTLY_LESS + MIDDLE
}

// Whether `before` is true, and the quotients at a bin leave no doubt of G.
pub fn sure<const SIDE: usize>(before: bool, v: f64, w: f64, a: f64, b: f64) -> bool
    ensures { result ≡ true → (before ≡ true) × (Sure SIDE v w a b) }
{
    let x = quotients::<SIDE>(v, w, a, b);
    before & (no_doubt(x[0]) & no_doubt(x[1]))
}

// The same of a bin in each of two lanes, part by part, so that the compiler asks both lanes at once.
pub fn sure_lanes<const SIDE: usize>(
    before: bool,
    v: [f64; 2],
    w: [f64; 2],
    a: [f64; 2],
    b: [f64; 2],
) -> bool
    ensures { result ≡ true → (before ≡ true) × (Sure SIDE (get_or v 0 nan) (get_or w 0 nan) (get_or a 0 nan) (get_or b 0 nan)) × (Sure SIDE (get_or v 1 nan) (get_or w 1 nan) (get_or a 1 nan) (get_or b 1 nan)) }
{
    let x = quotients::<SIDE>(v[0], w[0], a[0], b[0]);
    let y = quotients::<SIDE>(v[1], w[1], a[1], b[1]);
    let first = no_doubt(x[0]) & no_doubt(y[0]);
    let second = no_doubt(x[1]) & no_doubt(y[1]);
    before & (first & second)
}
