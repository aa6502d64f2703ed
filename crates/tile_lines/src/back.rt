// The transposed transform of a halfcomplex line in double, for columns, and half of it for two rows side by side, folded in halves as the transform is:
// from number n to number n + 8 the even places' sum stays and the odd places' sum changes its sign. No number on the way is above 2^53, so each is exact.
// Number n of row p stands at 2n + p.
ghost use Rattle.std.specs.Prelude.{◌≡◌, ◌∷◌, ◌+◌, ◌*◌, ◌/◌, ◌%◌, ◌^◌, ◌<◌, ◌+ℤ◌, ◌-ℤ◌};
ghost use Rattle.tile_lines.specs.Back.Prelude.{true, false, [], pos, length, tab, binary64, of_int, to_signed, side16, backward, half_sum, even_sum, odd_sum, even_half, fold_most, column_most, double_line, From, HalvesOf, WholeDouble, WholeRow, joined_at};

use tile_spectrum::lines::sixteen::{C0, C1, C2, C3};

// and half of C(0)
pub const HALF_C0: f64 = 8192.0;

// The even places' sum at the numbers 0 to 7, z[k] being place 2k; of places 0 and 8 with the cosine `own`: 16384, or half of it. From number n to number
// n + 4 what places 2, 6, 10 and 14 add changes its sign.
fn even(own: f64, z: [f64; 8]) -> [f64; 8]
    ensures { record { whole : own ≡ of_int binary64 (pos 16384) → From (fold_most false) 8 z (λ g. result ≡ double_line 8 (even_sum g)); half : own ≡ of_int binary64 (pos 8192) → From (column_most false) 8 z (λ g. result ≡ double_line 8 (even_half g)) } }
{
    let p = own * (z[0] + z[4]);
    let m = own * (z[0] - z[4]);
    let k = C0 * z[2];
    let j = C0 * z[6];
    let a = p + k;
    let b = m - j;
    let c = p - k;
    let d = m + j;
    let e = C0 * (z[1] + z[3]);
    let f = C0 * (z[7] - z[5]);
    let g = C2 * (z[1] - z[3]);
    let h = C2 * (z[5] + z[7]);
    let q = g - h;
    let u = g + h;
    [a + e, b + q, c + f, d - u, a - e, b - q, c - f, d + u]
}

// The odd places' sum at the numbers 0 to 7. From number n to number 8 − n what the real parts add changes its sign, and what the imaginary parts add stays.
fn odd(z1: f64, z3: f64, z5: f64, z7: f64, z9: f64, z11: f64, z13: f64, z15: f64) -> [f64; 8]
    ensures { From (column_most false) 8 (z1 ∷ z3 ∷ z5 ∷ z7 ∷ z9 ∷ z11 ∷ z13 ∷ z15 ∷ []) (λ z. result ≡ double_line 8 (odd_sum z)) }
{
    let p = z1 - z7;
    let q = z3 - z5;
    let r = z1 + z7;
    let s = z3 + z5;
    let u = z9 + z15;
    let w = z11 + z13;
    let x = z15 - z9;
    let y = z11 - z13;
    let a = C1 * p + C3 * q;
    let b = C2 * (r - s);
    let c = C3 * p - C1 * q;
    let d = C1 * w + C3 * u;
    let e = C2 * (x - y);
    let f = C3 * w - C1 * u;
    [
        C0 * (r + s),
        a - d,
        b + e,
        c + f,
        C0 * (x + y),
        f - c,
        e - b,
        0.0 - a - d,
    ]
}

// Number n of the line, from the sums of its even places and of its odd places.
fn unfolded(s: &[f64; 8], t: &[f64; 8], n: usize) -> f64
    requires { n < 16 }
    ensures { result ≡ joined_at s.now t.now n }
{
    if n < 8 {
        return s[n] + t[n];
    }
    s[n - 8] - t[n - 8]
}

// The transposed sum of the places z, a column.
pub fn backward(z: &[f64; 16]) -> [f64; 16]
    ensures { From (fold_most false) 16 z.now (λ g. result ≡ double_line 16 (backward g)) }
{
    let s = even(C0, [z[0], z[2], z[4], z[6], z[8], z[10], z[12], z[14]]);
    let t = odd(z[1], z[3], z[5], z[7], z[9], z[11], z[13], z[15]);
    let mut r = [0.0f64; 16];
    for n in 0..16 {
        r[n] = unfolded(&s, &t, n);
    }
    r
}

// The even places' half of the sum of row p.
fn even_of(h: &[f64; 32], p: usize) -> [f64; 8]
    requires { p < 2 }
    ensures { From (column_most false) 32 h.now (λ z. result ≡ double_line 8 (even_half (λ k. z (4 * k + p)))) }
{
    even(
        HALF_C0,
        [
            h[p],
            h[p + 4],
            h[p + 8],
            h[p + 12],
            h[p + 16],
            h[p + 20],
            h[p + 24],
            h[p + 28],
        ],
    )
}

// The odd places' sum of row p.
fn odd_of(h: &[f64; 32], p: usize) -> [f64; 8]
    requires { p < 2 }
    ensures { From (column_most false) 32 h.now (λ z. result ≡ double_line 8 (odd_sum (λ k. z (4 * k + 2 + p)))) }
{
    odd(
        h[p + 2],
        h[p + 6],
        h[p + 10],
        h[p + 14],
        h[p + 18],
        h[p + 22],
        h[p + 26],
        h[p + 30],
    )
}

// Half of the transposed sums of two rows, in which places 0 and 8 count once and the others twice, where noise is low.
pub fn halves(h: &[f64; 32], x: &mut [f64; 32])
    requires { length x.old ≡ 32 }
    ensures { record { long : length x.new ≡ 32; is : HalvesOf side16 (column_most true) 32 h.now x.new } }
{
    let s0 = even_of(h, 0);
    let s1 = even_of(h, 1);
    let t0 = odd_of(h, 0);
    let t1 = odd_of(h, 1);
    for n in 0..8 {
        x[2 * n] = s0[n] + t0[n];
        x[2 * n + 1] = s1[n] + t1[n];
        x[2 * n + 16] = s0[n] - t0[n];
        x[2 * n + 17] = s1[n] - t1[n];
    }
}

// The same by value, for numbers of up to 2^35 and other callers than the merge of side 16: `halves` has that one alone, so that it is compiled into it.
pub fn halves_of(h: &[f64; 32]) -> [f64; 32]
    ensures { HalvesOf side16 (2 ^ 35) 32 h.now result }
{
    let s0 = even_of(h, 0);
    let s1 = even_of(h, 1);
    let t0 = odd_of(h, 0);
    let t1 = odd_of(h, 1);
    let mut x = [0.0f64; 32];
    for n in 0..8 {
        x[2 * n] = s0[n] + t0[n];
        x[2 * n + 1] = s1[n] + t1[n];
        x[2 * n + 16] = s0[n] - t0[n];
        x[2 * n + 17] = s1[n] - t1[n];
    }
    x
}

// a + b and a − b in 64 bits.
pub fn whole_sum(a: f64, b: f64) -> i64
    requires { (WholeDouble (2 ^ 53) a) × (WholeDouble (2 ^ 53) b) }
    ensures { result ≡ to_signed 63 a +ℤ to_signed 63 b }
{
    a as i64 + b as i64
}

pub fn whole_difference(a: f64, b: f64) -> i64
    requires { (WholeDouble (2 ^ 53) a) × (WholeDouble (2 ^ 53) b) }
    ensures { result ≡ to_signed 63 a -ℤ to_signed 63 b }
{
    a as i64 - b as i64
}

// The same halves whatever the noise: the sums of the even and of the odd places are below 2^53, and what they add up to is taken in 64 bits.
pub fn whole_halves(h: &[f64; 32], x: &mut [i64; 32])
    requires { (WholeRow (column_most false) h.now) × (length x.old ≡ 32) }
    ensures { (w : WholeRow (column_most false) h.now) → x.new ≡ tab 32 (λ l. half_sum (λ k. w.number (2 * k + l % 2)) (l / 2)) }
{
    let s0 = even_of(h, 0);
    let s1 = even_of(h, 1);
    let t0 = odd_of(h, 0);
    let t1 = odd_of(h, 1);
    for n in 0..8 {
        x[2 * n] = whole_sum(s0[n], t0[n]);
        x[2 * n + 1] = whole_sum(s1[n], t1[n]);
        x[2 * n + 16] = whole_difference(s0[n], t0[n]);
        x[2 * n + 17] = whole_difference(s1[n], t1[n]);
    }
}

// The same by value, as `halves_of`.
pub fn whole_halves_of(h: &[f64; 32]) -> [i64; 32]
    requires { WholeRow (column_most false) h.now }
    ensures { (w : WholeRow (column_most false) h.now) → result ≡ tab 32 (λ l. half_sum (λ k. w.number (2 * k + l % 2)) (l / 2)) }
{
    let s0 = even_of(h, 0);
    let s1 = even_of(h, 1);
    let t0 = odd_of(h, 0);
    let t1 = odd_of(h, 1);
    let mut x = [0i64; 32];
    for n in 0..8 {
        x[2 * n] = whole_sum(s0[n], t0[n]);
        x[2 * n + 1] = whole_sum(s1[n], t1[n]);
        x[2 * n + 16] = whole_difference(s0[n], t0[n]);
        x[2 * n + 17] = whole_difference(s1[n], t1[n]);
    }
    x
}
