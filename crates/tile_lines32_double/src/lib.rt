// The transforms of two lines of thirty-two numbers side by side, folded in halves, in double: no number on the way is above 2^53, so each is exact. The even
// places are those of the sums' lines of sixteen, with the kernels of `tile_lines::double`; the odd places have a kernel of their own. Number n of line p stands at
// 2n + p.
// Its kernels are straight-line code, and that of thirty-two numbers is no case of that of sixteen.
#![tactic(auto)]

ghost use Rattle.std.specs.Prelude.{◌≡◌, ◌+◌, ◌*◌, ◌/◌, ◌%◌, ◌<◌, ◌+ℤ◌, ◌-ℤ◌};
ghost use Rattle.tile_lines32_double.specs.Prelude.{ℕ, ℤ, pos, length, get_or, side16, side32, halfcomplex_of, folded_of, every_second, long_line_most, long_sum_most, double_line, From};
ghost use Rattle.tile_spectrum.specs.Lines.Lines.{LineMost};
ghost use Rattle.tile_lines32_double.specs.Parts.{Halved, InParts};

use tile_spectrum::lines::thirty_two::{C0, C1, C2, C3, C4, C5, C6, C7};

// The sums of numbers half a line apart, for the even places.
fn sums(x: &[i32; 64]) -> [f64; 32]
    requires { LineMost long_line_most x.now }
    ensures { result ≡ double_line 32 (λ i. get_or x.now i (pos 0) +ℤ get_or x.now (i + 32) (pos 0)) }
{
    let mut r = [0.0f64; 32];
    for i in 0..32 {
        r[i] = x[i] as f64 + x[i + 32] as f64;
    }
    r
}

// Their differences, for the odd places.
fn differences(x: &[i32; 64]) -> [f64; 32]
    requires { LineMost long_line_most x.now }
    ensures { result ≡ double_line 32 (λ i. get_or x.now i (pos 0) -ℤ get_or x.now (i + 32) (pos 0)) }
{
    let mut r = [0.0f64; 32];
    for i in 0..32 {
        r[i] = x[i] as f64 - x[i + 32] as f64;
    }
    r
}

// The sums of the sums' lines of sixteen, again half a line apart.
fn sums_again(s: &[f64; 32]) -> [f64; 16]
    ensures { From long_sum_most 32 s.now (λ z. result ≡ double_line 16 (λ i. z i +ℤ z (i + 16))) }
{
    let mut r = [0.0f64; 16];
    for i in 0..16 {
        r[i] = s[i] + s[i + 16];
    }
    r
}

// And their differences.
fn differences_again(s: &[f64; 32]) -> [f64; 16]
    ensures { From long_sum_most 32 s.now (λ z. result ≡ double_line 16 (λ i. z i -ℤ z (i + 16))) }
{
    let mut r = [0.0f64; 16];
    for i in 0..16 {
        r[i] = s[i] - s[i + 16];
    }
    r
}

// The even places of line p, from the sums a and the differences b of its sums: the places of a line of sixteen.
fn even_of(a: &[f64; 16], b: &[f64; 16], p: usize) -> [f64; 16]
    requires { p < 2 }
    ensures { (z : ℕ → ℤ) → Halved z a.now b.now → result ≡ double_line 16 (halfcomplex_of side16 (λ n. z (2 * n + p))) }
{
    let e = tile_lines::double::even_of(a, p);
    let o = tile_lines::double::odd_of(b, p);
    let mut r = [0.0f64; 16];
    for k in 0..8 {
        r[2 * k] = e[k];
        r[2 * k + 1] = o[k];
    }
    r
}

// The odd places of line p are sums and differences of four parts: what its even and what its odd numbers add to the real parts of numbers 1, 3, 5 and 7 of the
// transform, and to the imaginary parts. Numbers n and 16 − n share a cosine, with opposite signs, and a sine. Each part is small enough to be compiled into
// `halfcomplex`, where the two lines become one vector; no sum begins with two products of like form, which the compiler could exchange in one line alone.
fn even_cosines(t: &[f64; 32], p: usize) -> [f64; 4]
    requires { p < 2 }
    ensures { From long_sum_most 32 t.now (λ z. result ≡ double_line 4 (λ i. folded_of side32 (every_second 0 (λ n. z (2 * n + p))) (2 * i + 1))) }
{
    let b = t[p + 4] - t[p + 28];
    let d = t[p + 12] - t[p + 20];
    let a = C0 * t[p];
    let c = C4 * (t[p + 8] - t[p + 24]);
    let m = a + c;
    let n = a - c;
    let w = C6 * b - C2 * d;
    [m + C2 * b + C6 * d, n + w, n - w, m - C2 * b - C6 * d]
}

// The odd numbers' part of the same.
fn odd_cosines(t: &[f64; 32], p: usize) -> [f64; 4]
    requires { p < 2 }
    ensures { From long_sum_most 32 t.now (λ z. result ≡ double_line 4 (λ i. folded_of side32 (every_second 1 (λ n. z (2 * n + p))) (2 * i + 1))) }
{
    let b = t[p + 2] - t[p + 30];
    let d = t[p + 6] - t[p + 26];
    let e = t[p + 22] - t[p + 10];
    let f = t[p + 18] - t[p + 14];
    [
        C1 * b - C5 * e + C3 * d - C7 * f,
        C3 * b - C7 * d + C1 * e + C5 * f,
        C5 * b - C1 * d - C7 * e - C3 * f,
        C7 * b - C5 * d - C3 * e + C1 * f,
    ]
}

// The even numbers' part of the imaginary parts.
fn even_sines(t: &[f64; 32], p: usize) -> [f64; 4]
    requires { p < 2 }
    ensures { From long_sum_most 32 t.now (λ z. result ≡ double_line 4 (λ i. folded_of side32 (every_second 0 (λ n. z (2 * n + p))) (2 * i + 17))) }
{
    let b = t[p + 4] + t[p + 28];
    let d = t[p + 12] + t[p + 20];
    let e = C0 * t[p + 16];
    let g = C4 * (t[p + 8] + t[p + 24]);
    let m = e + g;
    let w = C6 * d - C2 * b;
    [
        0.0 - (m + C6 * b + C2 * d),
        e - g + w,
        g - e + w,
        m - C6 * b - C2 * d,
    ]
}

// And the odd numbers'.
fn odd_sines(t: &[f64; 32], p: usize) -> [f64; 4]
    requires { p < 2 }
    ensures { From long_sum_most 32 t.now (λ z. result ≡ double_line 4 (λ i. folded_of side32 (every_second 1 (λ n. z (2 * n + p))) (2 * i + 17))) }
{
    let b = t[p + 2] + t[p + 30];
    let d = t[p + 6] + t[p + 26];
    let e = t[p + 10] + t[p + 22];
    let f = t[p + 14] + t[p + 18];
    [
        0.0 - C7 * b - C5 * d - C3 * e - C1 * f,
        C3 * f - C5 * b - C1 * d - C7 * e,
        C1 * e - C3 * b - C7 * d - C5 * f,
        C3 * d - C1 * b + C7 * f - C5 * e,
    ]
}

// The odd places from these parts: from number k to number 16 − k of the transform the odd numbers' cosines change their sign, and the even numbers' sines.
fn joined(a: &[f64; 4], b: &[f64; 4], c: &[f64; 4], d: &[f64; 4]) -> [f64; 16]
    ensures { (z : ℕ → ℤ) → InParts z a.now b.now c.now d.now → result ≡ double_line 16 (λ i. folded_of side32 z (2 * i + 1)) }
{
    [
        a[0] + b[0],
        a[1] + b[1],
        a[2] + b[2],
        a[3] + b[3],
        a[3] - b[3],
        a[2] - b[2],
        a[1] - b[1],
        a[0] - b[0],
        c[0] + d[0],
        c[1] + d[1],
        c[2] + d[2],
        c[3] + d[3],
        d[3] - c[3],
        d[2] - c[2],
        d[1] - c[1],
        d[0] - c[0],
    ]
}

// Place k of the transform of line p, at 2k + p.
pub fn halfcomplex(x: &[i32; 64], r: &mut [f64; 64])
    requires { (LineMost long_line_most x.now) × (length r.old ≡ 64) }
    ensures { r.new ≡ double_line 64 (λ l. halfcomplex_of side32 (λ n. get_or x.now (2 * n + l % 2) (pos 0)) (l / 2)) }
{
    let s = sums(x);
    let t = differences(x);
    let a = sums_again(&s);
    let b = differences_again(&s);
    let e0 = even_of(&a, &b, 0);
    let e1 = even_of(&a, &b, 1);
    let a0 = even_cosines(&t, 0);
    let a1 = even_cosines(&t, 1);
    let b0 = odd_cosines(&t, 0);
    let b1 = odd_cosines(&t, 1);
    let c0 = even_sines(&t, 0);
    let c1 = even_sines(&t, 1);
    let d0 = odd_sines(&t, 0);
    let d1 = odd_sines(&t, 1);
    let o0 = joined(&a0, &b0, &c0, &d0);
    let o1 = joined(&a1, &b1, &c1, &d1);
    for k in 0..16 {
        r[4 * k] = e0[k];
        r[4 * k + 1] = e1[k];
        r[4 * k + 2] = o0[k];
        r[4 * k + 3] = o1[k];
    }
}
