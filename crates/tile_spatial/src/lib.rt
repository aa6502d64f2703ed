// The spatial filter (request L13) on two tiles side by side: the copy of the merged tile, its bins, the Wiener step on them at V' of each bin, and N·P' from
// that, added to the sums of P. The copy has 24 bits: its high and low twelve are transformed one by one, in double, and put together in 64 bits.
#![tactic(auto)]

mod adding;
mod copying;
mod folds;
pub mod gains;
mod lanes;
mod parts;
mod places;

ghost use Rattle.std.specs.Prelude.{◌≡◌};
ghost use Rattle.tile_spatial.specs.Prelude.{pos, grid, cell, TileMost, copy_most, spatial_most, two_way, transposed, spread, plane_in, side_by_side, either, doubles};
ghost use Rattle.tile_spatial.specs.Filtering.{bin_noise, filtered_sums, Filterable, NoisesMost};
ghost use Rattle.tile_spatial.specs.Steps.{copy_place_most, pair_re, pair_im};

use crate::adding::add_times;
use crate::copying::copy_pair;
use crate::folds::folds;
use crate::gains::{counted, gain_row};
use crate::lanes::lanes;
use crate::parts::{highs, lows};
use crate::places::places;
use tile_pair::{add_inverse_of, forward_into};

// The bins of the copies of two planes, in halfcomplex form both ways, held by columns.
fn bins(c: &[[i32; 32]; 16]) -> [[i64; 32]; 16]
    requires { TileMost copy_most c.now }
    ensures { (result ≡ grid 16 32 (side_by_side (λ p. transposed (two_way (plane_in (cell (pos 0) c.now) p))))) × (TileMost copy_place_most result) }
{
    let mut high = [[0.0f64; 32]; 16];
    forward_into(&highs(c), &mut high);
    let mut low = [[0.0f64; 32]; 16];
    forward_into(&lows(c), &mut low);
    places(&high, &low)
}

// The Wiener step on these bins, folded for the inverse; V' of bin (u, v) of plane p, u and v up to 8, is place 2·v + p of row u of the noise numbers.
fn step(w: &[[i64; 32]; 16], noises: &[[u64; 18]; 9]) -> [[f64; 32]; 16]
    requires { record { places_most : TileMost copy_place_most w.now; noises_most : NoisesMost spatial_most noises.now } }
    ensures { result ≡ doubles (side_by_side (λ p. transposed (spread (pair_re noises.now w.now p) (pair_im noises.now w.now p)))) }
{
    let mut g = [[0i64; 18]; 16];
    let mut h = [[0i64; 18]; 16];
    for u in 0..16 {
        gain_row(w, &noises[counted(u)], u, &mut g[u], &mut h[u]);
    }
    folds(&g, &h)
}

// N·P' of both planes is added to their sums, at V' of their bins (u, v) for u and v up to 8.
pub fn filter_pair(
    frames: u64,
    first: &[[u64; 9]; 9],
    second: &[[u64; 9]; 9],
    t0: &[[u16; 32]; 16],
    sum: &mut [[i64; 32]; 16],
)
    requires { Filterable frames first.now second.now t0.now sum.old }
    ensures { sum.new ≡ filtered_sums frames (λ p. bin_noise (cell 0 (either first.now second.now p))) t0.now sum.old }
{
    let c = copy_pair(frames, t0, &*sum);
    let w = bins(&c);
    let noises = lanes(first, second);
    let mut g = step(&w, &noises);
    let mut p = [[0i64; 32]; 16];
    add_inverse_of(&mut g, false, &mut p);
    add_times(frames, &p, &mut *sum);
}
