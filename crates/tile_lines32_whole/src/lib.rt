// The transform of a line of thirty-two differences in halfcomplex form, folded in halves, in numbers narrow enough that the compiler takes several lines at once:
// the folds in 16 bits, the products in 32. The even places are those of the sums' line of sixteen. Its odd places, and what the even ones of the differences add to
// the odd places of the whole line, have the kernel of `tile_lines::whole`.
// Its kernels are straight-line code, and that of thirty-two numbers is no case of that of sixteen.
#![tactic(auto)]

ghost use Rattle.std.specs.Prelude.{◌≡◌, ◌∷◌, ◌+◌, ◌*◌};
ghost use Rattle.tile_lines32_whole.specs.Prelude.{[], ℕ, ℤ, pos, get_or, tab, side16, side32, halfcomplex_of, folded_of, difference_most, difference_fold_most, fold_again_most};
ghost use Rattle.tile_spectrum.specs.Lines.Lines.{LineMost};
ghost use Rattle.tile_lines32_whole.specs.Parts.{odd_part, InParts, part_most};

use tile_lines::whole::{differences, odd, sums};
use tile_spectrum::places::interleaved;

// C(0), C(1), C(3), C(4), C(5) and C(7)
const C0: i32 = 16384;

const C1: i32 = 16069;

const C3: i32 = 13623;

const C4: i32 = 11585;

const C5: i32 = 9102;

const C7: i32 = 3196;

// The even places of a line of sixteen, from the sums of its sums. Eight of the differences would not fit 16 bits, so that the products with C(4) are taken apart.
fn even(s0: i16, s1: i16, s2: i16, s3: i16, s4: i16, s5: i16, s6: i16, s7: i16) -> [i32; 8]
    requires { LineMost fold_again_most (s0 ∷ s1 ∷ s2 ∷ s3 ∷ s4 ∷ s5 ∷ s6 ∷ s7 ∷ []) }
    ensures { result ≡ tab 8 (λ i. folded_of side16 (λ n. get_or (s0 ∷ s1 ∷ s2 ∷ s3 ∷ s4 ∷ s5 ∷ s6 ∷ s7 ∷ []) n (pos 0)) (2 * i)) }
{
    let a = s0 as i32 + s4 as i32;
    let b = s1 as i32 + s5 as i32;
    let c = s2 as i32 + s6 as i32;
    let d = s3 as i32 + s7 as i32;
    let p = C4 * ((s1 - s5) as i32);
    let q = C4 * ((s3 - s7) as i32);
    let m = C0 * ((s0 - s4) as i32);
    let n = C0 * ((s2 - s6) as i32);
    let g = p - q;
    let h = p + q;
    [
        C0 * (a + c + (b + d)),
        m + g,
        C0 * (a - c),
        m - g,
        C0 * (a + c - (b + d)),
        0 - n - h,
        C0 * (d - b),
        n - h,
    ]
}

// What the odd ones of the differences add to the odd places: to the real parts of numbers 1, 3, 5 and 7 of the transform, then to the imaginary parts. The
// numbers n and 16 − n share a cosine, with opposite signs, and a sine.
fn odd_part(t1: i16, t3: i16, t5: i16, t7: i16, t9: i16, t11: i16, t13: i16, t15: i16) -> [i32; 8]
    requires { LineMost difference_fold_most (t1 ∷ t3 ∷ t5 ∷ t7 ∷ t9 ∷ t11 ∷ t13 ∷ t15 ∷ []) }
    ensures { result ≡ tab 8 (odd_part (λ n. get_or (t1 ∷ t3 ∷ t5 ∷ t7 ∷ t9 ∷ t11 ∷ t13 ∷ t15 ∷ []) n (pos 0))) }
{
    let b1 = (t1 - t15) as i32;
    let b3 = (t3 - t13) as i32;
    let b5 = (t5 - t11) as i32;
    let b7 = (t7 - t9) as i32;
    let h1 = (t1 + t15) as i32;
    let h3 = (t3 + t13) as i32;
    let h5 = (t5 + t11) as i32;
    let h7 = (t7 + t9) as i32;
    [
        C1 * b1 + C3 * b3 + (C5 * b5 + C7 * b7),
        C3 * b1 - C7 * b3 - (C1 * b5 + C5 * b7),
        C5 * b1 - C1 * b3 + (C7 * b5 + C3 * b7),
        C7 * b1 - C5 * b3 + (C3 * b5 - C1 * b7),
        0 - (C7 * h1 + C5 * h3) - (C3 * h5 + C1 * h7),
        C3 * h7 - C5 * h1 - (C1 * h3 + C7 * h5),
        C1 * h5 - C3 * h1 - (C7 * h3 + C5 * h7),
        C3 * h3 - C1 * h1 + (C7 * h7 - C5 * h5),
    ]
}

// The odd places, from what the even and the odd ones of the differences add to them: from number k to number 16 − k of the transform the odd numbers' cosines
// change their sign, and the even numbers' sines.
fn joined(e: &[i32; 8], o: &[i32; 8]) -> [i32; 16]
    requires { (LineMost part_most e.now) × (LineMost part_most o.now) }
    ensures { (z : ℕ → ℤ) → InParts z e.now o.now → result ≡ tab 16 (λ i. folded_of side32 z (2 * i + 1)) }
{
    [
        e[0] + o[0],
        e[1] + o[1],
        e[2] + o[2],
        e[3] + o[3],
        e[3] - o[3],
        e[2] - o[2],
        e[1] - o[1],
        e[0] - o[0],
        e[4] + o[4],
        e[5] + o[5],
        e[6] + o[6],
        e[7] + o[7],
        o[7] - e[7],
        o[6] - e[6],
        o[5] - e[5],
        o[4] - e[4],
    ]
}

// The even places of a line of sixteen sums.
fn first_places(s: &[i16; 16]) -> [i32; 8]
    requires { LineMost difference_fold_most s.now }
    ensures { result ≡ tab 8 (λ i. halfcomplex_of side16 (λ n. get_or s.now n (pos 0)) (2 * i)) }
{
    let a: [i16; 8] = sums(s);
    even(a[0], a[1], a[2], a[3], a[4], a[5], a[6], a[7])
}

// And its odd places.
fn second_places(s: &[i16; 16]) -> [i32; 8]
    requires { LineMost difference_fold_most s.now }
    ensures { result ≡ tab 8 (λ i. halfcomplex_of side16 (λ n. get_or s.now n (pos 0)) (2 * i + 1)) }
{
    let b: [i16; 8] = differences(s);
    odd(b[0], b[1], b[2], b[3], b[4], b[5], b[6], b[7])
}

// The places of a line of sixteen sums.
fn even_places(s: &[i16; 16]) -> [i32; 16]
    requires { LineMost difference_fold_most s.now }
    ensures { result ≡ tab 16 (halfcomplex_of side16 (λ n. get_or s.now n (pos 0))) }
{
    let e = first_places(s);
    let o = second_places(s);
    interleaved(&e, &o)
}

// The odd places of the line x.
fn odd_places(x: &[i16; 32]) -> [i32; 16]
    requires { LineMost difference_most x.now }
    ensures { result ≡ tab 16 (λ i. halfcomplex_of side32 (λ n. get_or x.now n (pos 0)) (2 * i + 1)) }
{
    let t: [i16; 16] = differences(x);
    let e = odd(t[0], t[2], t[4], t[6], t[8], t[10], t[12], t[14]);
    let o = odd_part(t[1], t[3], t[5], t[7], t[9], t[11], t[13], t[15]);
    joined(&e, &o)
}

// The transform of the line x: the real parts of its numbers 0..16, then the imaginary parts of 1..15.
pub fn halfcomplex(x: &[i16; 32]) -> [i32; 32]
    requires { LineMost difference_most x.now }
    ensures { result ≡ tab 32 (halfcomplex_of side32 (λ n. get_or x.now n (pos 0))) }
{
    let s: [i16; 16] = sums(x);
    let e = even_places(&s);
    let o = odd_places(x);
    // stored by twos: with `interleaved` at this length the compiler keeps a loop, and takes one line at a time, 1.2 times as long for a pair of tiles
    let mut r = [0i32; 32];
    for k in 0..16 {
        r[2 * k] = e[k];
        r[2 * k + 1] = o[k];
    }
    r
}
