// The Wiener step on two tiles side by side with quotients in whole numbers, for bins that are too large for quotients in double: the parts of Q go to 64 bits
// and those of G come back. The rest is in double, by quads as in `tile_wiener::filter`. SIDE is 32, or else 16.
#![tactic(auto)]

ghost use Rattle.std.specs.Prelude.{◌≡◌, ◌+◌, ◌*◌, ◌/◌, ◌%◌, ◌≤◌, ◌<◌};
ghost use Rattle.tile_wiener_exact.specs.Prelude.{pos, nan, binary64, of_int, cell, gain_most, bits_of, either, whole_quantized, exact_gains_in, number_of, bins_in, folded_in, WholeBinsOf, quad_at, place, Lanes, PairedOf, TileSide, IsPair, bin_most_at, noise_most_at, BinnedAt, GainsAt};
ghost use Rattle.algebra.specs.Bound.{AtMost};
ghost use Rattle.tile_spectrum.specs.Lines.Doubles.{WholeDouble};
ghost use Rattle.tile_wiener_exact.specs.ExactQuads.{exact_quad_by, new_exactly_by};

use tile_bin::double::quantized;
use tile_bin::parts::wiener_part;
use tile_quad::{quad_at, set_quad};

// One part of Q as a whole number, from that part of B.
fn whole_quantized<const SIDE: usize>(b: f64) -> i64
    requires { (TileSide SIDE) × (WholeDouble (bin_most_at SIDE) b) }
    ensures { (result ≡ whole_quantized SIDE b) × (AtMost gain_most result) }
{
    quantized::<SIDE>(b) as i64
}

// Both parts of G at a bin, from those of B.
fn gains<const SIDE: usize>(noise: u64, a: f64, b: f64) -> [f64; 2]
    requires { record { sided : TileSide SIDE; noise_below : noise ≤ noise_most_at SIDE; first : WholeDouble (bin_most_at SIDE) a; second : WholeDouble (bin_most_at SIDE) b } }
    ensures { result ≡ exact_gains_in SIDE noise a b }
{
    let q = whole_quantized::<SIDE>(a);
    let r = whole_quantized::<SIDE>(b);
    let g = wiener_part(noise, q, r);
    let h = wiener_part(noise, r, q);
    [g as f64, h as f64]
}

// G at a bin that is real.
fn real_gain<const SIDE: usize>(noise: u64, a: f64) -> f64
    requires { (TileSide SIDE) × (noise ≤ noise_most_at SIDE) × (WholeDouble (bin_most_at SIDE) a) }
    ensures { result ≡ number_of (exact_gains_in SIDE noise a (of_int binary64 (pos 0))) 0 }
{
    let g = gains::<SIDE>(noise, a, 0.0);
    g[0]
}

// The parts of the two bins of a quad.
pub fn bins(k: usize, u: usize, q: [f64; 4]) -> [f64; 4]
    ensures { result ≡ bins_in k u q }
{
    if k == 0 {
        return [q[0], q[1], q[2], q[3]];
    }
    if u == 0 {
        return [q[0], q[2], q[1], q[3]];
    }
    [q[0] - q[3], q[1] + q[2], q[0] + q[3], q[2] - q[1]]
}

// G of two bins, folded.
pub fn folded(k: usize, u: usize, g: [f64; 2], h: [f64; 2]) -> [f64; 4]
    ensures { result ≡ folded_in k u (number_of g 0) (number_of g 1) (number_of h 0) (number_of h 1) }
{
    if k == 0 {
        return [g[0] + g[0], g[1] + g[1], h[0] + h[0], h[1] + h[1]];
    }
    if u == 0 {
        return [g[0], h[0], g[1], h[1]];
    }
    [g[0] + h[0], g[1] - h[1], g[1] + h[1], h[0] - g[0]]
}

// A quad of G from that of B: four real bins at k = 0 and u = 0, and else two bins.
fn quad<const SIDE: usize>(noise: u64, k: usize, u: usize, q: [f64; 4]) -> [f64; 4]
    requires { record { sided : TileSide SIDE; noise_below : noise ≤ noise_most_at SIDE; k_below : k < SIDE / 2; u_below : u < SIDE / 2; whole : WholeBinsOf (bin_most_at SIDE) k u q } }
    ensures { result ≡ exact_quad_by (bits_of SIDE) noise k u q }
{
    let b = bins(k, u, q);
    if k + u == 0 {
        return [
            real_gain::<SIDE>(noise, b[0]),
            real_gain::<SIDE>(noise, b[1]),
            real_gain::<SIDE>(noise, b[2]),
            real_gain::<SIDE>(noise, b[3]),
        ];
    }
    let g = gains::<SIDE>(noise, b[0], b[1]);
    let h = gains::<SIDE>(noise, b[2], b[3]);
    folded(k, u, g, h)
}

// What goes with plane p.
pub fn of_plane(first: u64, second: u64, p: usize) -> u64
    ensures { result ≡ either first second p }
{
    if p == 0 {
        return first;
    }
    second
}

// G of the quads at u, in the place of B.
fn filter_row<const LANES: usize, const SIDE: usize>(
    b: &mut [[f64; LANES]; SIDE],
    first: u64,
    second: u64,
    u: usize,
)
    requires { record { pair : IsPair LANES SIDE; paired : PairedOf SIDE nan b.old; first_below : first ≤ noise_most_at SIDE; second_below : second ≤ noise_most_at SIDE; u_below : u < SIDE / 2; whole : (l : _) → l < SIDE → WholeBinsOf (bin_most_at SIDE) (l / 2) u (quad_at SIDE (cell nan b.old) u l) } }
    ensures { Lanes SIDE (new_exactly_by (bits_of SIDE) first second) (place SIDE u 0) (place SIDE u SIDE) b.old b.new }
{
    for l in 0..SIDE {
        let q = quad_at(&*b, u, l);
        let g = quad::<SIDE>(of_plane(first, second, l % 2), l / 2, u, q);
        set_quad(&mut *b, u, l, g);
    }
}

// G of two planes at their noise numbers, folded, in the place of B.
pub fn filter_exactly<const LANES: usize, const SIDE: usize>(
    b: &mut [[f64; LANES]; SIDE],
    first: u64,
    second: u64,
)
    requires { record { pair : IsPair LANES SIDE; binned : BinnedAt SIDE b.old; first_below : first ≤ noise_most_at SIDE; second_below : second ≤ noise_most_at SIDE } }
    ensures { GainsAt SIDE first second b.old b.new }
{
    for u in 0..SIDE / 2 {
        filter_row(&mut *b, first, second, u);
    }
}
