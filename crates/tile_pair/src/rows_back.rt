// The second pass of the inverse, along the rows of a pair that the pass down the columns leaves: half of each sum back, which over 2^31 is P. Where
// noise is low that is below 5·2^49, and all is in double; else it is made of its two parts in 64 bits. A row's step is called from two places, so that it is
// compiled by itself.
ghost use Rattle.std.specs.Prelude.{◌≡◌, ◌+◌, ◌*◌, ◌/◌, ◌%◌, ◌^◌, ◌+ℤ◌};
ghost use Rattle.tile_pair.specs.Prelude.{pos, length, get_or, away, tab, half_sum, LineMost, TileMost, WholeRow, column_most, Paired, InDouble, plane_in, added};

use rounding::round_away_31;
use tile_spectrum::adding::{add_each, rounded};

// P of a row is added to its sums, from the row h of the sums back down the columns: in double where noise is low.
fn add_line(h: &[f64; 32], low: bool, sum: &mut [i64; 32])
    requires { record { whole : WholeRow (column_most low) h.now; sums_most : LineMost (2 ^ 40) sum.old; long : length sum.old ≡ 32 } }
    ensures { (w : WholeRow (column_most low) h.now) → sum.new ≡ tab 32 (λ l. get_or sum.old l (pos 0) +ℤ away (half_sum (λ k. w.number (2 * k + l % 2)) (l / 2)) (2 ^ 31)) }
{
    if low {
        let mut x = [0.0f64; 32];
        tile_lines::back::halves(h, &mut x);
        add_each(&x, &mut *sum, rounded);
        return;
    }
    let mut x = [0i64; 32];
    tile_lines::back::whole_halves(h, &mut x);
    add_each(&x, &mut *sum, round_away_31);
}

// P of each row is added to its sums.
pub fn add_back(h: &[[f64; 32]; 16], low: bool, sum: &mut [[i64; 32]; 16])
    requires { record { whole : InDouble (column_most low) h.now; sums_most : TileMost (2 ^ 40) sum.old; paired : Paired (pos 0) sum.old } }
    ensures { (w : InDouble (column_most low) h.now) → sum.new ≡ added 16 sum.old (λ p y x. away (half_sum (plane_in w.number p y) x) (2 ^ 31)) }
{
    for y in 0..8 {
        add_line(&h[y], low, &mut sum[y]);
        add_line(&h[8 + y], low, &mut sum[8 + y]);
    }
}
