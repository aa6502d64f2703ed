// The second pass of the inverse, along the rows of a pair that the pass down the columns leaves: half of each sum back, which over 2^31 is P. Its kernel is
// called from two places, so that it is compiled by itself.
ghost use Rattle.std.specs.Prelude.{◌≡◌, ◌+◌, ◌*◌, ◌/◌, ◌%◌, ◌^◌, ◌+ℤ◌};
ghost use Rattle.tile_pair32.specs.Prelude.{true, false, pos, length, get_or, side32, AtMost, away, tab, half_sum_of, LineMost, TileMost, long_column_most, long_half_most, WholeDouble, WholeLine, plane_in, added, LongPaired, LongInDouble};
ghost use Rattle.tile_pair32.specs.Rounded.{twice_double};

use rounding::{BY_2_31, MIDDLE, MIDDLE_BITS, TWO_31, UNDER_2_31, round_away_31};
use tile_spectrum::adding::{add_each, rounded};

// `rounded` of a half where noise is middle: the first sum may be one too far, and what it leaves then takes that off.
fn rounded_twice(x: f64) -> i64
    requires { WholeDouble (long_half_most false true) x }
    ensures { (result ≡ twice_double x) × (AtMost (2 ^ 22) result) }
{
    let a = x * BY_2_31 + MIDDLE;
    let b = (x - TWO_31 * (a - MIDDLE)) * UNDER_2_31 + MIDDLE;
    (f64::to_bits(a) as i64 - MIDDLE_BITS) + (f64::to_bits(b) as i64 - MIDDLE_BITS)
}

// P of a row is added to its sums, from the row h of the sums back down the columns: in double where noise is low or middle.
fn add_line(h: &[f64; 64], low: bool, middle: bool, sum: &mut [i64; 64])
    requires { record { whole : WholeLine 64 (long_column_most low middle) h.now; sums_most : LineMost (2 ^ 40) sum.old; long : length sum.old ≡ 64 } }
    ensures { (w : WholeLine 64 (long_column_most low middle) h.now) → sum.new ≡ tab 64 (λ l. get_or sum.old l (pos 0) +ℤ away (half_sum_of side32 (λ k. w.number (2 * k + l % 2)) (l / 2)) (2 ^ 31)) }
{
    if low {
        let mut x = [0.0f64; 64];
        tile_lines32_back::halves(h, &mut x);
        add_each(&x, &mut *sum, rounded);
        return;
    }
    if middle {
        let mut x = [0.0f64; 64];
        tile_lines32_back::halves(h, &mut x);
        add_each(&x, &mut *sum, rounded_twice);
        return;
    }
    let mut x = [0i64; 64];
    tile_lines32_back::whole_halves(h, &mut x);
    add_each(&x, &mut *sum, round_away_31);
}

// P of each row is added to its sums.
pub fn add_back(h: &[[f64; 64]; 32], low: bool, middle: bool, sum: &mut [[i64; 64]; 32])
    requires { record { whole : LongInDouble (long_column_most low middle) h.now; sums_most : TileMost (2 ^ 40) sum.old; paired : LongPaired (pos 0) sum.old } }
    ensures { (w : LongInDouble (long_column_most low middle) h.now) → sum.new ≡ added 32 sum.old (λ p y x. away (half_sum_of side32 (plane_in w.number p y) x) (2 ^ 31)) }
{
    for y in 0..16 {
        add_line(&h[y], low, middle, &mut sum[y]);
        add_line(&h[16 + y], low, middle, &mut sum[16 + y]);
    }
}
