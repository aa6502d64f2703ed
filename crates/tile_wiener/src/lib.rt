// The Wiener step on two tiles side by side, in double, by quads: with h half the side, rows u and h + u of lanes l and side + l hold bins (u, v) and (side − u, v)
// of a plane, with v = l / 2, and what comes of them is folded for the inverse. A turn of a loop is a quad, and the compiler does two at a time. Each loop answers
// whether all of its quotients are certain. SIDE is 32, or else 16.
#![tactic(auto)]

ghost use Rattle.std.specs.Prelude.{◌≡◌, ◌+◌, ◌*◌, ◌/◌, ◌%◌, ◌≤◌, ◌<◌};
ghost use Rattle.tile_wiener.specs.Prelude.{true, nan, bits_of, either, PairedOf, GainsAt, IsPair, noise_most_at, cell, place, quad_at, Lanes};
ghost use Rattle.sequences.specs.Tab.{tab};
ghost use Rattle.tile_wiener.specs.DoubleQuads.{new_quad, Shrunk};

use std::array::from_fn;
use tile_bin::double::{gains, real_gain, sure, sure_lanes};
use tile_quad::{quad_at, set_quad};

// 1 + 2^-51
pub const SLIGHTLY_MORE: f64 = 1.0000000000000004440892098500626;

// The quads at u = 0 and v = 0: four real bins.
fn corner<const LANES: usize, const SIDE: usize>(
    b: &mut [[f64; LANES]; SIDE],
    v: &[f64; SIDE],
    w: &[f64; SIDE],
) -> bool
    requires { (IsPair LANES SIDE) × (PairedOf SIDE nan b.old) }
    ensures { Shrunk SIDE result v.now w.now (place SIDE 0 0) (place SIDE 0 2) b.old b.new }
{
    let mut s = true;
    for l in 0..2 {
        let q = quad_at(&*b, 0, l);
        let a = v[l];
        let c = w[l];
        let g = [
            real_gain::<SIDE>(a, c, q[0]),
            real_gain::<SIDE>(a, c, q[1]),
            real_gain::<SIDE>(a, c, q[2]),
            real_gain::<SIDE>(a, c, q[3]),
        ];
        s = sure::<SIDE>(sure::<SIDE>(s, a, c, q[0], 0.0), a, c, q[1], 0.0);
        s = sure::<SIDE>(sure::<SIDE>(s, a, c, q[2], 0.0), a, c, q[3], 0.0);
        set_quad(&mut *b, 0, l, g);
    }
    s
}

// The other quads at u = 0: bins (0, v) and (h, v).
fn left<const LANES: usize, const SIDE: usize>(
    b: &mut [[f64; LANES]; SIDE],
    v: &[f64; SIDE],
    w: &[f64; SIDE],
) -> bool
    requires { (IsPair LANES SIDE) × (PairedOf SIDE nan b.old) }
    ensures { Shrunk SIDE result v.now w.now (place SIDE 0 2) (place SIDE 0 SIDE) b.old b.new }
{
    let mut s = true;
    for l in 2..SIDE {
        let q = quad_at(&*b, 0, l);
        let a = v[l];
        let c = w[l];
        let g = gains::<SIDE>(a, c, q[0], q[2]);
        let h = gains::<SIDE>(a, c, q[1], q[3]);
        s = sure::<SIDE>(sure::<SIDE>(s, a, c, q[0], q[2]), a, c, q[1], q[3]);
        set_quad(&mut *b, 0, l, [g[0], h[0], g[1], h[1]]);
    }
    s
}

// The quad at u and v = 0 in lane l: bins (u, 0) and (u, h), and their conjugates. Answers B's quad.
fn top_lane<const LANES: usize, const SIDE: usize>(
    b: &mut [[f64; LANES]; SIDE],
    v: &[f64; SIDE],
    w: &[f64; SIDE],
    u: usize,
    l: usize,
) -> [f64; 4]
    requires { record { pair : IsPair LANES SIDE; u_some : 0 < u; u_below : u < SIDE / 2; l_below : l < 2; paired : PairedOf SIDE nan b.old } }
    ensures { (result ≡ quad_at SIDE (cell nan b.old) u l) × (Lanes SIDE (new_quad SIDE v.now w.now) (place SIDE u l) (place SIDE u l + 1) b.old b.new) }
{
    let q = quad_at(&*b, u, l);
    let a = v[l];
    let c = w[l];
    let g = gains::<SIDE>(a, c, q[0], q[1]);
    let h = gains::<SIDE>(a, c, q[2], q[3]);
    set_quad(
        &mut *b,
        u,
        l,
        [g[0] + g[0], g[1] + g[1], h[0] + h[0], h[1] + h[1]],
    );
    q
}

// Both quads at u and v = 0. They are asked together, so that the compiler takes two lanes at a time here too.
fn top<const LANES: usize, const SIDE: usize>(
    b: &mut [[f64; LANES]; SIDE],
    v: &[f64; SIDE],
    w: &[f64; SIDE],
    u: usize,
) -> bool
    requires { record { pair : IsPair LANES SIDE; u_some : 0 < u; u_below : u < SIDE / 2; paired : PairedOf SIDE nan b.old } }
    ensures { Shrunk SIDE result v.now w.now (place SIDE u 0) (place SIDE u 2) b.old b.new }
{
    let q = top_lane(&mut *b, v, w, u, 0);
    let p = top_lane(&mut *b, v, w, u, 1);
    let a = [v[0], v[1]];
    let c = [w[0], w[1]];
    let s = sure_lanes::<SIDE>(true, a, c, [q[0], p[0]], [q[1], p[1]]);
    sure_lanes::<SIDE>(s, a, c, [q[2], p[2]], [q[3], p[3]])
}

// The other quads at u.
fn inner<const LANES: usize, const SIDE: usize>(
    b: &mut [[f64; LANES]; SIDE],
    v: &[f64; SIDE],
    w: &[f64; SIDE],
    u: usize,
) -> bool
    requires { record { pair : IsPair LANES SIDE; u_some : 0 < u; u_below : u < SIDE / 2; paired : PairedOf SIDE nan b.old } }
    ensures { Shrunk SIDE result v.now w.now (place SIDE u 2) (place SIDE u SIDE) b.old b.new }
{
    let mut s = true;
    for l in 2..SIDE {
        let q = quad_at(&*b, u, l);
        let a = v[l];
        let c = w[l];
        let x = q[0];
        let y = q[1];
        let z = q[2];
        let t = q[3];
        let g = gains::<SIDE>(a, c, x - t, y + z);
        let h = gains::<SIDE>(a, c, x + t, z - y);
        s = sure::<SIDE>(sure::<SIDE>(s, a, c, x - t, y + z), a, c, x + t, z - y);
        set_quad(
            &mut *b,
            u,
            l,
            [g[0] + h[0], g[1] - h[1], g[1] + h[1], h[0] - g[0]],
        );
    }
    s
}

// a in the lanes of plane 0 and b in those of plane 1.
fn alternating<const SIDE: usize>(a: f64, b: f64) -> [f64; SIDE]
    ensures { result ≡ tab SIDE (λ l. either a b (l % 2)) }
{
    from_fn(
        |l: usize| -> f64
            ensures { result ≡ either a b (l % 2) }
        { if l % 2 == 0 { a } else { b } },
    )
}

// G of two planes at their noise numbers, folded, in the place of B. Where the answer is false, V is 0 in one plane or a quotient is in doubt, and what stands there
// is not to be used.
pub fn filter<const LANES: usize, const SIDE: usize>(
    b: &mut [[f64; LANES]; SIDE],
    first: u64,
    second: u64,
) -> bool
    requires { record { pair : IsPair LANES SIDE; paired : PairedOf SIDE nan b.old; first_below : first ≤ noise_most_at SIDE; second_below : second ≤ noise_most_at SIDE } }
    ensures { record { paired : PairedOf SIDE nan b.new; is : result ≡ true → GainsAt SIDE first second b.old b.new } }
{
    let v = alternating(first as f64, second as f64);
    let w = alternating(first as f64 * SLIGHTLY_MORE, second as f64 * SLIGHTLY_MORE);
    if first == 0 {
        return false;
    }
    if second == 0 {
        return false;
    }
    if !corner(&mut *b, &v, &w) {
        return false;
    }
    if !left(&mut *b, &v, &w) {
        return false;
    }
    for u in 1..SIDE / 2 {
        if !top(&mut *b, &v, &w, u) {
            return false;
        }
        if !inner(&mut *b, &v, &w, u) {
            return false;
        }
    }
    true
}
