// The transforms of two lines of sixteen numbers side by side, folded as in `tile_lines::whole`, in double: no number on the way is above 2^53, so each is exact.
// Number n of line p stands at 2n + p.
ghost use Rattle.std.specs.Prelude.{◌≡◌, ◌∷◌, ◌+◌, ◌*◌, ◌/◌, ◌%◌, ◌<◌, ◌+ℤ◌, ◌-ℤ◌};
ghost use Rattle.tile_lines.specs.Double.Prelude.{[], pos, length, get_or, halfcomplex, folded};
ghost use Rattle.tile_spectrum.specs.Lines.Magnitudes.{pair_line_most, pair_sum_most};
ghost use Rattle.tile_spectrum.specs.Lines.Lines.{LineMost};
ghost use Rattle.tile_spectrum.specs.Lines.Doubles.{double_line, From};

use tile_spectrum::lines::sixteen::{C0, C1, C2, C3};

// The sums of numbers half a line apart, for the even places.
fn sums(x: &[i32; 32]) -> [f64; 16]
    requires { LineMost pair_line_most x.now }
    ensures { result ≡ double_line 16 (λ i. get_or x.now i (pos 0) +ℤ get_or x.now (i + 16) (pos 0)) }
{
    let mut r = [0.0f64; 16];
    for i in 0..16 {
        r[i] = x[i] as f64 + x[i + 16] as f64;
    }
    r
}

// Their differences, for the odd places.
fn differences(x: &[i32; 32]) -> [f64; 16]
    requires { LineMost pair_line_most x.now }
    ensures { result ≡ double_line 16 (λ i. get_or x.now i (pos 0) -ℤ get_or x.now (i + 16) (pos 0)) }
{
    let mut r = [0.0f64; 16];
    for i in 0..16 {
        r[i] = x[i] as f64 - x[i + 16] as f64;
    }
    r
}

// The even places of a line, from its sums.
fn even(s0: f64, s1: f64, s2: f64, s3: f64, s4: f64, s5: f64, s6: f64, s7: f64) -> [f64; 8]
    ensures { From pair_sum_most 8 (s0 ∷ s1 ∷ s2 ∷ s3 ∷ s4 ∷ s5 ∷ s6 ∷ s7 ∷ []) (λ s. result ≡ double_line 8 (λ i. folded s (2 * i))) }
{
    let a = s0 + s4;
    let b = s1 + s5;
    let c = s2 + s6;
    let d = s3 + s7;
    let p = s1 - s5;
    let q = s3 - s7;
    let m = C0 * (s0 - s4);
    let n = C0 * (s2 - s6);
    let g = C2 * (p - q);
    let h = C2 * (p + q);
    [
        C0 * (a + c + (b + d)),
        m + g,
        C0 * (a - c),
        m - g,
        C0 * (a + c - (b + d)),
        0.0 - n - h,
        C0 * (d - b),
        n - h,
    ]
}

// The odd places, from its differences.
fn odd(t0: f64, t1: f64, t2: f64, t3: f64, t4: f64, t5: f64, t6: f64, t7: f64) -> [f64; 8]
    ensures { From pair_sum_most 8 (t0 ∷ t1 ∷ t2 ∷ t3 ∷ t4 ∷ t5 ∷ t6 ∷ t7 ∷ []) (λ t. result ≡ double_line 8 (λ i. folded t (2 * i + 1))) }
{
    let a = C0 * t0;
    let b = t1 - t7;
    let c = C2 * (t2 - t6);
    let d = t3 - t5;
    let p = C1 * b + C3 * d;
    let q = C3 * b - C1 * d;
    let e = C0 * t4;
    let f = t3 + t5;
    let g = C2 * (t2 + t6);
    let h = t1 + t7;
    let u = C1 * f + C3 * h;
    let w = C3 * f - C1 * h;
    [
        a + c + p,
        a - c + q,
        a - c - q,
        a + c - p,
        0.0 - e - g - u,
        e - g + w,
        g - e + w,
        e + g - u,
    ]
}

// The even places of line p.
pub fn even_of(s: &[f64; 16], p: usize) -> [f64; 8]
    requires { p < 2 }
    ensures { From pair_sum_most 16 s.entry.now (λ s. result ≡ double_line 8 (λ i. folded (λ n. s (2 * n + p)) (2 * i))) }
{
    even(
        s[p],
        s[p + 2],
        s[p + 4],
        s[p + 6],
        s[p + 8],
        s[p + 10],
        s[p + 12],
        s[p + 14],
    )
}

// The odd places of line p.
pub fn odd_of(t: &[f64; 16], p: usize) -> [f64; 8]
    requires { p < 2 }
    ensures { From pair_sum_most 16 t.entry.now (λ t. result ≡ double_line 8 (λ i. folded (λ n. t (2 * n + p)) (2 * i + 1))) }
{
    odd(
        t[p],
        t[p + 2],
        t[p + 4],
        t[p + 6],
        t[p + 8],
        t[p + 10],
        t[p + 12],
        t[p + 14],
    )
}

// Place k of the transform of line p, at 2k + p.
pub fn halfcomplex(x: &[i32; 32], r: &mut [f64; 32])
    requires { (LineMost pair_line_most x.now) × (length r.old ≡ 32) }
    ensures { r.new ≡ double_line 32 (λ l. halfcomplex (λ n. get_or x.now (2 * n + l % 2) (pos 0)) (l / 2)) }
{
    let s = sums(x);
    let t = differences(x);
    let e0 = even_of(&s, 0);
    let e1 = even_of(&s, 1);
    let o0 = odd_of(&t, 0);
    let o1 = odd_of(&t, 1);
    for k in 0..8 {
        r[4 * k] = e0[k];
        r[4 * k + 1] = e1[k];
        r[4 * k + 2] = o0[k];
        r[4 * k + 3] = o1[k];
    }
}
