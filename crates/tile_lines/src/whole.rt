// The transform of a line of sixteen differences in halfcomplex form, folded in halves, in numbers narrow enough that the compiler takes several lines at
// once: the folds in 16 bits, the products in 32. The tables are exactly symmetric, so each fold is exact: C(k+8) = −C(k), C(8−k) = −C(k), S(k) = C(k+12)
// and C(4) = 0.
ghost use Rattle.std.specs.Prelude.{◌≡◌, ◌∷◌, ◌+◌, ◌*◌, ◌<◌, ◌+ℤ◌, ◌-ℤ◌};
ghost use Rattle.recipe.specs.Side.{Side};
ghost use Rattle.tile_spectrum.specs.Lines.Fold.{sum_of, difference_of};
ghost use Rattle.tile_lines.specs.Whole.Prelude.{[], pos, get_or, tab, halfcomplex, folded, difference_most, difference_fold_most, fold_again_most};
ghost use Rattle.tile_spectrum.specs.Lines.Lines.{LineMost};

use tile_spectrum::places::interleaved;

// C(0) to C(3)
const C0: i32 = 16384;

const C1: i32 = 15137;

const C2: i32 = 11585;

const C3: i32 = 6270;

// The sums of numbers half a line apart, for the even places, of a line of any length.
pub fn sums<const LEN: usize, const HALF: usize>(x: &[i16; LEN]) -> [i16; HALF]
    requires { (LEN ≡ 2 * HALF) × (LineMost difference_fold_most x.now) }
    ensures { (s : Side) → s.half ≡ HALF → result ≡ tab HALF (sum_of s (λ n. get_or x.now n (pos 0))) }
{
    std::array::from_fn(
        |i: usize| -> i16
            requires { (i < HALF) × (LEN ≡ 2 * HALF) × (LineMost difference_fold_most x.now) }
            ensures { result ≡ get_or x.entry.now i (pos 0) +ℤ get_or x.entry.now (i + HALF) (pos 0) }
        { x[i] + x[i + HALF] },
    )
}

// Their differences, for the odd places.
pub fn differences<const LEN: usize, const HALF: usize>(x: &[i16; LEN]) -> [i16; HALF]
    requires { (LEN ≡ 2 * HALF) × (LineMost difference_fold_most x.now) }
    ensures { (s : Side) → s.half ≡ HALF → result ≡ tab HALF (difference_of s (λ n. get_or x.now n (pos 0))) }
{
    std::array::from_fn(
        |i: usize| -> i16
            requires { (i < HALF) × (LEN ≡ 2 * HALF) × (LineMost difference_fold_most x.now) }
            ensures { result ≡ get_or x.entry.now i (pos 0) -ℤ get_or x.entry.now (i + HALF) (pos 0) }
        { x[i] - x[i + HALF] },
    )
}

// The even places, from the sums. Their cosines lie an even number of steps apart, so C(k+8) = −C(k) folds the sums again, four numbers apart. p ∓ q is a
// sum of eight differences, which still fits 16 bits: 8·4095 = 32760.
fn even(s0: i16, s1: i16, s2: i16, s3: i16, s4: i16, s5: i16, s6: i16, s7: i16) -> [i32; 8]
    requires { LineMost difference_fold_most (s0 ∷ s1 ∷ s2 ∷ s3 ∷ s4 ∷ s5 ∷ s6 ∷ s7 ∷ []) }
    ensures { result ≡ tab 8 (λ i. folded (λ n. get_or (s0 ∷ s1 ∷ s2 ∷ s3 ∷ s4 ∷ s5 ∷ s6 ∷ s7 ∷ []) n (pos 0)) (2 * i)) }
{
    let a = s0 as i32 + s4 as i32;
    let b = s1 as i32 + s5 as i32;
    let c = s2 as i32 + s6 as i32;
    let d = s3 as i32 + s7 as i32;
    let p = s1 - s5;
    let q = s3 - s7;
    let m = C0 * ((s0 - s4) as i32);
    let n = C0 * ((s2 - s6) as i32);
    let g = C2 * ((p - q) as i32);
    let h = C2 * ((p + q) as i32);
    [
        C0 * (a + c + (b + d)),
        m + g,
        C0 * (a - c),
        m - g,
        C0 * (a + c - (b + d)),
        0 - n - h,
        C0 * (d - b),
        n - h,
    ]
}

// The odd places, from the differences: four real parts, then four imaginary parts. C(8−k) = −C(k) and S(8−k) = S(k): the differences n and 8 − n share a
// cosine, with opposite signs, and a sine.
pub fn odd(t0: i16, t1: i16, t2: i16, t3: i16, t4: i16, t5: i16, t6: i16, t7: i16) -> [i32; 8]
    requires { LineMost fold_again_most (t0 ∷ t1 ∷ t2 ∷ t3 ∷ t4 ∷ t5 ∷ t6 ∷ t7 ∷ []) }
    ensures { result ≡ tab 8 (λ i. folded (λ n. get_or (t0 ∷ t1 ∷ t2 ∷ t3 ∷ t4 ∷ t5 ∷ t6 ∷ t7 ∷ []) n (pos 0)) (2 * i + 1)) }
{
    let a = C0 * (t0 as i32);
    let b = (t1 - t7) as i32;
    let c = C2 * ((t2 - t6) as i32);
    let d = (t3 - t5) as i32;
    let p = C1 * b + C3 * d;
    let q = C3 * b - C1 * d;
    let e = C0 * (t4 as i32);
    let f = (t3 + t5) as i32;
    let g = C2 * ((t2 + t6) as i32);
    let h = (t1 + t7) as i32;
    let u = C1 * f + C3 * h;
    let w = C3 * f - C1 * h;
    [
        a + c + p,
        a - c + q,
        a - c - q,
        a + c - p,
        0 - e - g - u,
        e - g + w,
        g - e + w,
        e + g - u,
    ]
}

// These places of the line x.
fn even_places(x: &[i16; 16]) -> [i32; 8]
    requires { LineMost difference_most x.now }
    ensures { result ≡ tab 8 (λ i. halfcomplex (λ n. get_or x.now n (pos 0)) (2 * i)) }
{
    let s: [i16; 8] = sums(x);
    even(s[0], s[1], s[2], s[3], s[4], s[5], s[6], s[7])
}

// The odd places of the line x.
fn odd_places(x: &[i16; 16]) -> [i32; 8]
    requires { LineMost difference_most x.now }
    ensures { result ≡ tab 8 (λ i. halfcomplex (λ n. get_or x.now n (pos 0)) (2 * i + 1)) }
{
    let t: [i16; 8] = differences(x);
    odd(t[0], t[1], t[2], t[3], t[4], t[5], t[6], t[7])
}

// The transform of the line x: the real parts of its numbers 0..8, then the imaginary parts of 1..7.
pub fn halfcomplex(x: &[i16; 16]) -> [i32; 16]
    requires { LineMost difference_most x.now }
    ensures { result ≡ tab 16 (halfcomplex (λ n. get_or x.now n (pos 0))) }
{
    let e = even_places(x);
    let o = odd_places(x);
    interleaved(&e, &o)
}
