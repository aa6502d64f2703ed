// The two-way transform, the Wiener step and the inverse of document 01, on two tiles side by side, in double: place 2·x + p of a row is column x of plane p.
#![tactic(auto)]

mod columns;
pub mod columns_back;
mod rows;
mod rows_back;

ghost use Rattle.std.specs.Prelude.{◌≡◌, ◌^◌, ◌≤◌};
ghost use Rattle.tile_pair.specs.Prelude.{pos, nan, side16, difference_most, fold_most, TileMost, Paired, InDouble, BinnedPair, GainsOf, by_columns, plane_bins, pair_gains, InverseAdded, correction_in, added, doubles};
ghost use Rattle.tile_spectrum.specs.Magnitudes.{noise_most};

use tile_bin::quiet::{LOW_NOISE, both_most};
use tile_wiener::filter;
use tile_wiener_exact::filter_exactly;

// b: B of both planes of a pair of tiles of differences, in exact whole numbers.
pub fn forward_into(d: &[[i16; 32]; 16], b: &mut [[f64; 32]; 16])
    requires { (TileMost difference_most d.now) × (Paired nan b.old) }
    ensures { b.new ≡ doubles (by_columns (plane_bins side16 d.now)) }
{
    let mut a = [[0i32; 32]; 16];
    columns::forward(d, &mut a);
    rows::rows(&a, &mut *b);
}

// The same by value, for the merge: with one caller it is compiled into it, and neither tile is zeroed or copied for the call.
fn forward(d: [[i16; 32]; 16]) -> [[f64; 32]; 16]
    requires { TileMost difference_most d }
    ensures { result ≡ doubles (by_columns (plane_bins side16 d)) }
{
    let mut a = [[0i32; 32]; 16];
    columns::forward(&d, &mut a);
    let mut b = [[0.0f64; 32]; 16];
    rows::rows(&a, &mut b);
    b
}

// Q and G of both planes at their noise numbers, with quotients in double where none is in doubt, and else in whole numbers.
pub fn wiener_of(b: &[[f64; 32]; 16], first: u64, second: u64) -> [[f64; 32]; 16]
    requires { record { binned : BinnedPair b.now; first_most : first ≤ noise_most; second_most : second ≤ noise_most } }
    ensures { GainsOf first second b.now result }
{
    let mut g = *b;
    if filter(&mut g, first, second) {
        return g;
    }
    g = *b;
    filter_exactly(&mut g, first, second);
    g
}

// The folded G of both planes from their differences, for the merge as `forward`: where a quotient is in doubt B is made anew, so that no copy of it is kept.
fn gains(d: &[[i16; 32]; 16], first: u64, second: u64) -> [[f64; 32]; 16]
    requires { record { differences : TileMost difference_most d.now; first_most : first ≤ noise_most; second_most : second ≤ noise_most } }
    ensures { result ≡ doubles (pair_gains side16 first second (plane_bins side16 d.now)) }
{
    let mut g = forward(*d);
    if filter(&mut g, first, second) {
        return g;
    }
    g = [[0.0f64; 32]; 16];
    forward_into(d, &mut g);
    filter_exactly(&mut g, first, second);
    g
}

// P of both planes is added to their sums, from the folded G, in whose place the sums down its columns come; `low` where both noise numbers are.
pub fn add_inverse_of(g: &mut [[f64; 32]; 16], low: bool, sum: &mut [[i64; 32]; 16])
    requires { record { whole : InDouble (fold_most low) g.old; sums_most : TileMost (2 ^ 40) sum.old; paired : Paired (pos 0) sum.old } }
    ensures { InverseAdded (fold_most low) g.old sum.old sum.new }
{
    columns_back::back(&mut *g);
    rows_back::add_back(&*g, low, &mut *sum);
}

// The same from G by value, for the merge as `forward`.
fn add_inverse(mut g: [[f64; 32]; 16], low: bool, sum: &mut [[i64; 32]; 16])
    requires { record { whole : InDouble (fold_most low) g; sums_most : TileMost (2 ^ 40) sum.old; paired : Paired (pos 0) sum.old } }
    ensures { InverseAdded (fold_most low) g sum.old sum.new }
{
    columns_back::back(&mut g);
    rows_back::add_back(&g, low, &mut *sum);
}

// P of both planes of a pair of tiles of differences, at their noise numbers, is added to their sums.
pub fn add_corrections(d: &[[i16; 32]; 16], first: u64, second: u64, sum: &mut [[i64; 32]; 16])
    requires { record { differences : TileMost difference_most d.now; first_most : first ≤ noise_most; second_most : second ≤ noise_most; sums_most : TileMost (2 ^ 40) sum.old; paired : Paired (pos 0) sum.old } }
    ensures { sum.new ≡ added 16 sum.old (correction_in side16 first second d.now) }
{
    let low = both_most(LOW_NOISE, first, second);
    let g = gains(d, first, second);
    add_inverse(g, low, &mut *sum);
}
