// The least and the greatest corrections of two tiles side by side whose noise numbers are known only between two ends (request L14). Each part of G ranges
// between its results at both ends, so that the greatest inverse sum is half of both ends' sum and of how far they are apart, and the least is half of their
// sum less that. Both ends' sum separates into columns and rows, as the merge's does.
#![tactic(auto)]

mod adding;
mod distances;
mod factors;
mod rounds;
mod widths;

ghost use Rattle.std.specs.Prelude.{◌≡◌};
ghost use Rattle.range_pair.specs.Prelude.{true, false, grid, fold_most, InDouble};
ghost use Rattle.range_pair.specs.Factors.{WidthTile, width_in};
ghost use Rattle.range_pair.specs.Added.{EndsLent, EndsAdded};

use crate::adding::add_pair;
use crate::distances::{apart_pair, distance_row};
use crate::factors::factors;
use crate::rounds::add_lines;
use crate::widths::widths;
use tile_pair::columns_back::back;
use tile_pair::{add_corrections, forward_into, wiener_of};

// The noise numbers of two planes.
#[derive(Clone, Copy)]
pub struct Noises {
    pub first: u64,
    pub second: u64,
}

fn same(a: Noises, b: Noises) -> bool
    ensures { result ≡ true → a ≡ b }
{
    if a.first != b.first {
        return false;
    }
    a.second == b.second
}

// How far the ends of both planes' inverse sums are apart, twice, from both folded G.
fn widths_of(low: &[[f64; 32]; 16], high: &[[f64; 32]; 16]) -> [[u64; 16]; 8]
    requires { (InDouble (fold_most false) low.now) × (InDouble (fold_most false) high.now) }
    ensures { (result ≡ grid 8 16 (width_in low.now high.now)) × (WidthTile result) }
{
    let w = apart_pair(low, high);
    let mut re = [[0u64; 18]; 16];
    let mut im = [[0u64; 18]; 16];
    for u in 0..16 {
        distance_row(&w, u, &mut re[u], &mut im[u]);
    }
    let f = factors();
    widths(&f, &re, &im)
}

// P of the greatest and of the least sums is added to theirs.
fn add_apart(
    d: &[[i16; 32]; 16],
    lower: Noises,
    upper: Noises,
    greatest: &mut [[i64; 32]; 16],
    least: &mut [[i64; 32]; 16],
)
    requires { EndsLent d.now lower upper greatest.old least.old }
    ensures { EndsAdded d.now lower upper greatest.old greatest.new least.old least.new }
{
    let mut b = [[0.0f64; 32]; 16];
    forward_into(d, &mut b);
    let mut low = wiener_of(&b, lower.first, lower.second);
    let mut high = wiener_of(&b, upper.first, upper.second);
    let w = widths_of(&low, &high);
    back(&mut low);
    back(&mut high);
    add_lines(&low, &high, &w, &mut *greatest, &mut *least);
}

// P is added to both sums, once worked out.
fn add_same(
    d: &[[i16; 32]; 16],
    noises: Noises,
    greatest: &mut [[i64; 32]; 16],
    least: &mut [[i64; 32]; 16],
)
    requires { EndsLent d.now noises noises greatest.old least.old }
    ensures { EndsAdded d.now noises noises greatest.old greatest.new least.old least.new }
{
    let mut p = [[0i64; 32]; 16];
    add_corrections(d, noises.first, noises.second, &mut p);
    add_pair(&p, &mut *greatest);
    add_pair(&p, &mut *least);
}

// P of the greatest and of the least sums of both planes of a pair of tiles of differences is added to their sums. Where both planes' ends are equal that is the
// recipe's P, by the merge's own kernels.
pub fn add_ends(
    d: &[[i16; 32]; 16],
    lower: Noises,
    upper: Noises,
    greatest: &mut [[i64; 32]; 16],
    least: &mut [[i64; 32]; 16],
)
    requires { EndsLent d.now lower upper greatest.old least.old }
    ensures { EndsAdded d.now lower upper greatest.old greatest.new least.old least.new }
{
    if same(lower, upper) {
        add_same(d, lower, &mut *greatest, &mut *least);
        return;
    }
    add_apart(d, lower, upper, &mut *greatest, &mut *least);
}
