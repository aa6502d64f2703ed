// The two-way transform, the Wiener step and the inverse of document 01, on two tiles side by side, in double: place 2·x + p of a row is column x of plane p.
#![tactic(auto)]

mod columns;
mod columns_back;
mod rows;
mod rows_back;

ghost use Rattle.std.specs.Prelude.{◌≡◌, ◌^◌, ◌≤◌};
ghost use Rattle.tile_pair32.specs.Prelude.{pos, nan, side32, difference_most, long_fold_most, TileMost, by_columns, plane_bins, pair_gains, correction_in, added, LongPaired, LongInDouble, LongInverseAdded, long_doubles};
ghost use Rattle.tile_spectrum.specs.Magnitudes.{long_noise_most};

use tile_bin::quiet::{LONG_LOW_NOISE, LONG_MIDDLE_NOISE, both_most};
use tile_wiener::filter;
use tile_wiener_exact::filter_exactly;

// b: B of both planes, in exact whole numbers.
fn forward(d: &[[i16; 64]; 32], b: &mut [[f64; 64]; 32])
    requires { (TileMost difference_most d.now) × (LongPaired nan b.old) }
    ensures { b.new ≡ long_doubles (by_columns (plane_bins side32 d.now)) }
{
    let mut a = [[0i32; 64]; 32];
    columns::forward(d, &mut a);
    rows::rows(&a, &mut *b);
}

// b: the folded G of both planes at their noise numbers, with quotients in double where none is in doubt; else B is made anew, and they are in whole numbers.
fn gains(d: &[[i16; 64]; 32], first: u64, second: u64, b: &mut [[f64; 64]; 32])
    requires { record { differences : TileMost difference_most d.now; first_most : first ≤ long_noise_most; second_most : second ≤ long_noise_most; spare : LongPaired nan b.old } }
    ensures { b.new ≡ long_doubles (pair_gains side32 first second (plane_bins side32 d.now)) }
{
    forward(d, &mut *b);
    if filter(&mut *b, first, second) {
        return;
    }
    forward(d, &mut *b);
    filter_exactly(&mut *b, first, second);
}

// P of both planes is added to their sums, from the folded G, in whose place the sums down its columns come; `low` and `middle` where both noise numbers are.
fn add_inverse(g: &mut [[f64; 64]; 32], low: bool, middle: bool, sum: &mut [[i64; 64]; 32])
    requires { record { whole : LongInDouble (long_fold_most low middle) g.old; sums_most : TileMost (2 ^ 40) sum.old; paired : LongPaired (pos 0) sum.old } }
    ensures { record { spare : LongPaired nan g.new; is : LongInverseAdded (long_fold_most low middle) g.old sum.old sum.new } }
{
    columns_back::back(&mut *g);
    rows_back::add_back(&*g, low, middle, &mut *sum);
}

// P of both planes of a pair of tiles of differences, at their noise numbers, is added to their sums. A tile b is lent for B and G, since they are large.
pub fn add_corrections(
    d: &[[i16; 64]; 32],
    first: u64,
    second: u64,
    b: &mut [[f64; 64]; 32],
    sum: &mut [[i64; 64]; 32],
)
    requires { record { differences : TileMost difference_most d.now; first_most : first ≤ long_noise_most; second_most : second ≤ long_noise_most; spare : LongPaired nan b.old; sums_most : TileMost (2 ^ 40) sum.old; paired : LongPaired (pos 0) sum.old } }
    ensures { record { spare : LongPaired nan b.new; is : sum.new ≡ added 32 sum.old (correction_in side32 first second d.now) } }
{
    let low = both_most(LONG_LOW_NOISE, first, second);
    let middle = both_most(LONG_MIDDLE_NOISE, first, second);
    gains(d, first, second, &mut *b);
    add_inverse(&mut *b, low, middle, &mut *sum);
}
