// P of a row added to its sums, from the halves of its inverse sums, over any number of lanes: P is a half over 2^31.
ghost use Rattle.std.specs.Prelude.{◌≡◌, ℕ, length, ◌+◌, ◌<◌, ◌^◌, ◌+ℤ◌};
ghost use Rattle.algebra.specs.Prelude.{ℤ, pos, nat_abs};
ghost use Rattle.algebra.specs.Bound.{AtMost};
ghost use Rattle.tile_spectrum.specs.Prelude.{get_or, tab};
ghost use Rattle.tile_spectrum.specs.Lines.Doubles.{WholeDouble};
ghost use Rattle.tile_spectrum.specs.Rounded.{rounded_most, rounded_double};

use rounding::{BY_2_31, MIDDLE, MIDDLE_BITS};

// x over 2^31, to nearest, halves away from zero.
pub fn rounded(x: f64) -> i64
    requires { WholeDouble rounded_most x }
    ensures { (result ≡ rounded_double x) × (AtMost (2 ^ 21) result) }
{
    f64::to_bits(x * BY_2_31 + MIDDLE) as i64 - MIDDLE_BITS
}

// What f makes of each half is added to its sum.
pub fn add_each<A: Copy, const LANES: usize, F: Fn(A) -> i64>(
    x: &[A; LANES],
    sum: &mut [i64; LANES],
    f: F,
)
    requires callable { (l : ℕ) (a : A) → length x.now ≡ LANES → l < LANES → F.pre f (get_or x.now l a) }
    requires fits { (l : ℕ) (a : A) (r : ℤ) → length x.now ≡ LANES → l < LANES → F.post f (get_or x.now l a) r → nat_abs (get_or sum.old l (pos 0)) + nat_abs r < 2 ^ 63 }
    ensures { (h : ℕ → ℤ) → ((l : ℕ) (a : A) (r : ℤ) → length x.now ≡ LANES → l < LANES → F.post f (get_or x.now l a) r → r ≡ h l) → sum.new ≡ tab LANES (λ l. get_or sum.old l (pos 0) +ℤ h l) }
{
    for l in 0..LANES {
        sum[l] = sum[l] + f(x[l]);
    }
}
