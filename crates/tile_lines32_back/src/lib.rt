// The transposed transform of a halfcomplex line of thirty-two places in double, for columns, and half of it for two rows side by side, folded in halves: from
// number n to number n + 16 the even places' sum stays and the odd places' sum changes its sign. The even places are summed as a line of sixteen, by `tile_lines::back`.
// No number on the way is above 2^53, so each is exact; where noise is neither low nor middle, half of a row's sum is added up in 64 bits from four such sums. Number n of row p
// stands at 2n + p.
// Its kernels are straight-line code, and that of thirty-two numbers is no case of that of sixteen.
#![tactic(auto)]

ghost use Rattle.std.specs.Prelude.{◌≡◌, ◌+◌, ◌*◌, ◌/◌, ◌%◌, ◌<◌};
ghost use Rattle.tile_lines32_back.specs.Prelude.{true, false, length, get_or, nan, tab, side32, backward_of, half_sum_of, odd_sum_of, long_fold_most, long_column_most, double_line, From, HalvesOf, WholeLine};
ghost use Rattle.tile_lines32_back.specs.Parts.{cosine_part, sine_part, InParts};

use tile_lines::back::{HALF_C0, halves_of, whole_difference, whole_halves_of, whole_sum};
use tile_spectrum::lines::thirty_two::{C1, C2, C3, C4, C5, C6, C7};

// What the real parts of the odd places, z[k] being place 2k + 1, add to their sum at the numbers 0, 2, 4 and 6, half of it at 0: places 2k + 1 and 15 − 2k
// share a cosine there.
fn even_cosines(z: &[f64; 16]) -> [f64; 4]
    ensures { From (long_column_most false false) 16 z.now (λ g. result ≡ double_line 4 (λ n. cosine_part g (2 * n))) }
{
    let a1 = z[0] + z[7];
    let a3 = z[1] + z[6];
    let a5 = z[2] + z[5];
    let a7 = z[3] + z[4];
    let p = a1 - a7;
    let q = a3 - a5;
    let r = a1 + a7;
    let s = a3 + a5;
    [
        HALF_C0 * (r + s),
        C2 * p + C6 * q,
        C4 * (r - s),
        C6 * p - C2 * q,
    ]
}

// The same at the numbers 1, 3, 5 and 7, where the cosines have opposite signs.
fn odd_cosines(z: &[f64; 16]) -> [f64; 4]
    ensures { From (long_column_most false false) 16 z.now (λ g. result ≡ double_line 4 (λ n. cosine_part g (2 * n + 1))) }
{
    let d1 = z[0] - z[7];
    let d3 = z[1] - z[6];
    let d5 = z[2] - z[5];
    let d7 = z[3] - z[4];
    [
        C1 * d1 + C3 * d3 + (C5 * d5 + C7 * d7),
        C3 * d1 - C7 * d3 - (C1 * d5 + C5 * d7),
        C5 * d1 - C1 * d3 + (C7 * d5 + C3 * d7),
        C7 * d1 - C5 * d3 + (C3 * d5 - C1 * d7),
    ]
}

// What the imaginary parts add at the numbers 2, 4, 6 and 8, half of it at 8: two of them have a sine with opposite signs there.
fn even_sines(z: &[f64; 16]) -> [f64; 4]
    ensures { From (long_column_most false false) 16 z.now (λ g. result ≡ double_line 4 (λ n. sine_part g (2 * n + 2))) }
{
    let u1 = z[15] - z[8];
    let u3 = z[14] - z[9];
    let u5 = z[13] - z[10];
    let u7 = z[12] - z[11];
    let u = u1 + u7;
    let w = u3 + u5;
    let x = u1 - u7;
    let y = u5 - u3;
    [
        C2 * w + C6 * u,
        C4 * (x - y),
        C2 * u - C6 * w,
        HALF_C0 * (x + y),
    ]
}

// The same at the numbers 1, 3, 5 and 7, where they share it.
fn odd_sines(z: &[f64; 16]) -> [f64; 4]
    ensures { From (long_column_most false false) 16 z.now (λ g. result ≡ double_line 4 (λ n. sine_part g (2 * n + 1))) }
{
    let w1 = z[8] + z[15];
    let w3 = z[9] + z[14];
    let w5 = z[10] + z[13];
    let w7 = z[11] + z[12];
    [
        0.0 - (C7 * w1 + C5 * w3 + (C3 * w5 + C1 * w7)),
        C3 * w7 - C5 * w1 - (C1 * w3 + C7 * w5),
        C1 * w5 - C3 * w1 - (C7 * w3 + C5 * w7),
        C3 * w3 - C1 * w1 + (C7 * w7 - C5 * w5),
    ]
}

// The odd places' sum at the numbers 0 to 15 from what these four give, where noise is low or middle: from number n to number 16 − n what the real parts add
// changes its sign, and what the imaginary parts add stays.
fn joined(a: [f64; 4], b: [f64; 4], c: [f64; 4], d: [f64; 4]) -> [f64; 16]
    ensures { (w : InParts (long_column_most false true) a b c d) → result ≡ double_line 16 (odd_sum_of side32 w.number) }
{
    [
        a[0] + a[0],
        b[0] + d[0],
        a[1] + c[0],
        b[1] + d[1],
        a[2] + c[1],
        b[2] + d[2],
        a[3] + c[2],
        b[3] + d[3],
        c[3] + c[3],
        d[3] - b[3],
        c[2] - a[3],
        d[2] - b[2],
        c[1] - a[2],
        d[1] - b[1],
        c[0] - a[1],
        d[0] - b[0],
    ]
}

// The transposed sum of the places z, a column.
pub fn backward(z: &[f64; 32]) -> [f64; 32]
    ensures { From (long_fold_most false false) 32 z.now (λ g. result ≡ double_line 32 (backward_of side32 g)) }
{
    let mut e = [0.0f64; 16];
    let mut o = [0.0f64; 16];
    for k in 0..16 {
        e[k] = z[2 * k];
        o[k] = z[2 * k + 1];
    }
    let s = tile_lines::back::backward(&e);
    let a = even_cosines(&o);
    let b = odd_cosines(&o);
    let c = even_sines(&o);
    let d = odd_sines(&o);
    let t = joined(a, b, c, d);
    let mut r = [0.0f64; 32];
    for n in 0..16 {
        r[n] = s[n] + t[n];
        r[n + 16] = s[n] - t[n];
    }
    r
}

// The even places of two rows.
fn evens(h: &[f64; 64]) -> [f64; 32]
    ensures { From (long_column_most false false) 64 h.now (λ z. result ≡ double_line 32 (λ l. z (4 * (l / 2) + l % 2))) }
{
    let mut r = [0.0f64; 32];
    for k in 0..16 {
        r[2 * k] = h[4 * k];
        r[2 * k + 1] = h[4 * k + 1];
    }
    r
}

// The odd places of row p.
fn odd_places(h: &[f64; 64], p: usize) -> [f64; 16]
    requires { p < 2 }
    ensures { result ≡ tab 16 (λ k. get_or h.now (4 * k + 2 + p) nan) }
{
    let mut o = [0.0f64; 16];
    for k in 0..16 {
        o[k] = h[4 * k + 2 + p];
    }
    o
}

// The odd places of two rows, summed. Each kernel is short enough to be compiled into its callers, and runs for both rows next to each other, here and in
// `whole_odds`: so the compiler takes the two rows at once.
fn odds(h: &[f64; 64]) -> [f64; 32]
    ensures { From (long_column_most false true) 64 h.now (λ z. result ≡ double_line 32 (λ l. odd_sum_of side32 (λ k. z (4 * k + 2 + l % 2)) (l / 2))) }
{
    let o0 = odd_places(h, 0);
    let o1 = odd_places(h, 1);
    let a0 = even_cosines(&o0);
    let a1 = even_cosines(&o1);
    let b0 = odd_cosines(&o0);
    let b1 = odd_cosines(&o1);
    let c0 = even_sines(&o0);
    let c1 = even_sines(&o1);
    let d0 = odd_sines(&o0);
    let d1 = odd_sines(&o1);
    let t0 = joined(a0, b0, c0, d0);
    let t1 = joined(a1, b1, c1, d1);
    let mut r = [0.0f64; 32];
    for k in 0..16 {
        r[2 * k] = t0[k];
        r[2 * k + 1] = t1[k];
    }
    r
}

// Half of the transposed sums of two rows, in which places 0 and 16 count once and the others twice, where noise is low or middle.
pub fn halves(h: &[f64; 64], x: &mut [f64; 64])
    requires { length x.old ≡ 64 }
    ensures { record { long : length x.new ≡ 64; is : HalvesOf side32 (long_column_most false true) 64 h.now x.new } }
{
    let e = evens(h);
    let s = halves_of(&e);
    let t = odds(h);
    for l in 0..32 {
        x[l] = s[l] + t[l];
        x[l + 32] = s[l] - t[l];
    }
}

// The same sum in 64 bits, whatever the noise.
fn whole_joined(a: [f64; 4], b: [f64; 4], c: [f64; 4], d: [f64; 4]) -> [i64; 16]
    requires { InParts (long_column_most false false) a b c d }
    ensures { (w : InParts (long_column_most false false) a b c d) → result ≡ tab 16 (odd_sum_of side32 w.number) }
{
    [
        whole_sum(a[0], a[0]),
        whole_sum(b[0], d[0]),
        whole_sum(a[1], c[0]),
        whole_sum(b[1], d[1]),
        whole_sum(a[2], c[1]),
        whole_sum(b[2], d[2]),
        whole_sum(a[3], c[2]),
        whole_sum(b[3], d[3]),
        whole_sum(c[3], c[3]),
        whole_difference(d[3], b[3]),
        whole_difference(c[2], a[3]),
        whole_difference(d[2], b[2]),
        whole_difference(c[1], a[2]),
        whole_difference(d[1], b[1]),
        whole_difference(c[0], a[1]),
        whole_difference(d[0], b[0]),
    ]
}

// The odd places of two rows, summed in two parts each, which are added in 64 bits.
fn whole_odds(h: &[f64; 64]) -> [i64; 32]
    requires { WholeLine 64 (long_column_most false false) h.now }
    ensures { (w : WholeLine 64 (long_column_most false false) h.now) → result ≡ tab 32 (λ l. odd_sum_of side32 (λ k. w.number (4 * k + 2 + l % 2)) (l / 2)) }
{
    let o0 = odd_places(h, 0);
    let o1 = odd_places(h, 1);
    let a0 = even_cosines(&o0);
    let a1 = even_cosines(&o1);
    let b0 = odd_cosines(&o0);
    let b1 = odd_cosines(&o1);
    let c0 = even_sines(&o0);
    let c1 = even_sines(&o1);
    let d0 = odd_sines(&o0);
    let d1 = odd_sines(&o1);
    let t0 = whole_joined(a0, b0, c0, d0);
    let t1 = whole_joined(a1, b1, c1, d1);
    let mut r = [0i64; 32];
    for k in 0..16 {
        r[2 * k] = t0[k];
        r[2 * k + 1] = t1[k];
    }
    r
}

// The same halves whatever the noise: the sums of four parts of the places are below 2^53, and what they add up to is taken in 64 bits.
pub fn whole_halves(h: &[f64; 64], x: &mut [i64; 64])
    requires { (WholeLine 64 (long_column_most false false) h.now) × (length x.old ≡ 64) }
    ensures { (w : WholeLine 64 (long_column_most false false) h.now) → x.new ≡ tab 64 (λ l. half_sum_of side32 (λ k. w.number (2 * k + l % 2)) (l / 2)) }
{
    let e = evens(h);
    let a = whole_halves_of(&e);
    let b = whole_odds(h);
    for l in 0..32 {
        x[l] = a[l] + b[l];
        x[l + 32] = a[l] - b[l];
    }
}
