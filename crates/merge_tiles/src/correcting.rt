// What is taken from a pair of tiles: its noise numbers, its differences to the other frames, P summed over them, and the spatial filter's P'.
ghost use Rattle.std.specs.Prelude.{◌≡◌, ◌≤◌, ◌<◌, ◌*◌, ◌^◌, ℕ};
ghost use Rattle.merge_tiles.specs.Prelude.{pos, grid, cell, side_of, black_of, scene_at, noise_most, small_most, Paired, either, filtered_sums, SamplePair, SumPair, TileMost};
ghost use Rattle.recipe.specs.NoiseNumber.{noise_number};
ghost use Rattle.tile_spectrum.specs.Pairs.{added, correction_in};
ghost use Rattle.tile_spectrum.specs.Lines.Magnitudes.{difference_most};
ghost use Rattle.merge_tiles.specs.Accepted.{Accepted, Sited, Tuned, spatial_in};
ghost use Rattle.merge_tiles.specs.Sum.{Summed, Taken};
ghost use Rattle.merge_tiles.specs.Asked.{Correctable, CorrectorLaws, PairSummed};
ghost use Rattle.merge_tiles.specs.Sixteen.{laws_of_16};

use crate::reading::{differences, pair};
use crate::{Burst, Site};
use noise::spatial::spatial_numbers;
use recipe::{Merge, Tuning};
use tile_root::Roots;

// How P of a pair of tiles of one side is computed, with the memory that this takes.
pub trait Corrector<const LANES: usize, const SIDE: usize> {
    // What that memory holds between two pairs; the greatest V of a tile; and the greatest size of P for one other frame.
    ghost ready: { Self → Type 0 };

    ghost noise_top: { ℕ };

    ghost small: { ℕ };

    // P of both planes of a pair of tiles of differences, at their noise numbers, is added to their sums.
    fn add_corrections(
        &mut self,
        d: &[[i16; LANES]; SIDE],
        first: u64,
        second: u64,
        sum: &mut [[i64; LANES]; SIDE],
    )
        requires { record { ready : ready self.old; differences : TileMost difference_most d.now; first_most : first ≤ noise_top; second_most : second ≤ noise_top; sums_most : TileMost (2 ^ 40) sum.old; paired : sum.old ≡ grid SIDE (2 * SIDE) (cell (pos 0) sum.old) } }
        ensures ready { ready self.new }
        ensures is { sum.new ≡ added SIDE sum.old (correction_in (side_of SIDE) first second d.now) };

    ghost laws: { CorrectorLaws LANES SIDE noise_top small };
}

// What is taken from a pair of tiles of one side in all.
pub trait TileCorrector<const LANES: usize, const SIDE: usize>: Corrector<LANES, SIDE> {
    // T0, r and V of a pair of tiles, and what is taken from it: its corrections, summed over the other frames from 0, and the spatial filter's.
    fn tile_correction(&mut self, burst: Burst<'_>, site: Site, sum: &mut [[i64; LANES]; SIDE])
        requires { record { ready : Self.ready self.old; accepted : Accepted SIDE burst.merge burst.samples.now burst.vectors.now; sited : Sited SIDE burst.merge.shape site; cleared : sum.old ≡ grid SIDE (2 * SIDE) (λ i l. pos 0) } }
        ensures ready { Self.ready self.new }
        ensures taken { Taken SIDE (scene_at (side_of SIDE) burst.entry.merge burst.entry.samples.now burst.entry.vectors.now) site sum.new };
}

// The black level of a plane.
pub fn plane_black(tuning: Tuning, parity: usize, column: usize) -> u16
    requires { (parity < 2) × (column < 2) }
    ensures { result ≡ black_of tuning parity column }
{
    tuning.black[2 * parity + column]
}

// V of a tile of a side, by its r.
fn tile_noise(side: usize, m: Merge, root: u64) -> u64
    requires { record { shot_most : m.shot ≤ 65536; read_most : m.read ≤ 4194304; strength_most : m.tuning.strength ≤ 1024; side_most : side ≤ 32; root-most : root ≤ side * 4095 } }
    ensures { result ≡ noise_number (side_of side) m.tuning.strength m.shot m.read root }
{
    noise::side_noise_number(side, m.tuning.strength, m.shot, m.read, root)
}

// The corrections of a pair of tiles at their noise numbers, summed over the other frames from 0.
fn corrections<const LANES: usize, const SIDE: usize, C: Corrector<LANES, SIDE>>(
    corrector: &mut C,
    burst: Burst<'_>,
    site: Site,
    t0: &[[u16; LANES]; SIDE],
    first: u64,
    second: u64,
    sum: &mut [[i64; LANES]; SIDE],
)
    requires ready { C.ready corrector.old }
    requires asked { Correctable SIDE (side_of SIDE) C.noise_top burst.merge burst.samples.now burst.vectors.now site t0.now first second sum.old }
    ensures ready { C.ready corrector.new }
    ensures summed { Summed SIDE C.small (scene_at (side_of SIDE) burst.entry.merge burst.entry.samples.now burst.entry.vectors.now) site sum.new }
{
    let others = burst.merge.shape.count - 1;
    let mut tz = [[0u16; LANES]; SIDE];
    let mut d = [[0i16; LANES]; SIDE];
    for k in 0..others {
        differences(burst, site, k, t0, &mut tz, &mut d);
        corrector.add_corrections(&d, first, second, &mut *sum);
    }
}

// The same; all 0 where both V are.
fn summed<const LANES: usize, const SIDE: usize, C: Corrector<LANES, SIDE>>(
    corrector: &mut C,
    burst: Burst<'_>,
    site: Site,
    t0: &[[u16; LANES]; SIDE],
    first: u64,
    second: u64,
    sum: &mut [[i64; LANES]; SIDE],
)
    requires ready { C.ready corrector.old }
    requires asked { Correctable SIDE (side_of SIDE) C.noise_top burst.merge burst.samples.now burst.vectors.now site t0.now first second sum.old }
    ensures ready { C.ready corrector.new }
    ensures summed { Summed SIDE C.small (scene_at (side_of SIDE) burst.entry.merge burst.entry.samples.now burst.entry.vectors.now) site sum.new }
{
    if first + second == 0 {
        return;
    }
    corrections(&mut *corrector, burst, site, t0, first, second, &mut *sum);
}

// T0, r and V of a pair of tiles, and its corrections, summed over the other frames from 0.
pub fn sum_pair<const LANES: usize, const SIDE: usize, C: Corrector<LANES, SIDE>>(
    corrector: &mut C,
    burst: Burst<'_>,
    site: Site,
    t0: &mut [[u16; LANES]; SIDE],
    sum: &mut [[i64; LANES]; SIDE],
) -> Roots
    requires { record { ready : C.ready corrector.old; accepted : Accepted SIDE burst.merge burst.samples.now burst.vectors.now; sited : Sited SIDE burst.merge.shape site; cleared : sum.old ≡ grid SIDE (2 * SIDE) (λ i l. pos 0) } }
    ensures ready { C.ready corrector.new }
    ensures summed { PairSummed SIDE C.small (scene_at (side_of SIDE) burst.entry.merge burst.entry.samples.now burst.entry.vectors.now) site t0.new result.first result.second sum.new }
{
    let m = burst.merge;
    pair(m.shape, burst.samples, m.reference, site, 0, 0, &mut *t0);
    let first_black = plane_black(m.tuning, site.parity, 0);
    let second_black = plane_black(m.tuning, site.parity, 1);
    let roots = tile_root::pair_roots(first_black, second_black, &*t0);
    let first = tile_noise(SIDE, m, roots.first);
    let second = tile_noise(SIDE, m, roots.second);
    summed(&mut *corrector, burst, site, &*t0, first, second, &mut *sum);
    roots
}

// N·P' of the spatial filter is added to the sums of a pair of tiles of these roots.
fn filter_sums(m: Merge, t0: &[[u16; 32]; 16], first: u64, second: u64, sum: &mut [[i64; 32]; 16])
    requires { record { tuned : Tuned m; first_most : first ≤ 65520; second_most : second ≤ 65520; samples : SamplePair t0.now; sums : SumPair m.shape.count sum.old; paired : Paired (pos 0) sum.old } }
    ensures { sum.new ≡ filtered_sums m.shape.count (spatial_in m (either first second)) t0.now sum.old }
{
    let frames = m.shape.count as u64;
    let a = spatial_numbers(m.tuning.spatial, m.shot, m.read, first, frames);
    let b = spatial_numbers(m.tuning.spatial, m.shot, m.read, second, frames);
    tile_spatial::filter_pair(frames, &a, &b, t0, &mut *sum);
}

// Tiles of side 16, whose P takes no memory of its own.
#[derive(Clone, Copy)]
pub struct Sixteen;

impl Corrector<32, 16> for Sixteen {
    ghost ready = { λ s. Unit {0} };

    ghost noise_top = { noise_most };

    ghost small = { small_most };

    fn add_corrections(
        &mut self,
        d: &[[i16; 32]; 16],
        first: u64,
        second: u64,
        sum: &mut [[i64; 32]; 16],
    ) {
        tile_pair::add_corrections(d, first, second, &mut *sum);
    }

    ghost laws = { laws_of_16 };
}

impl TileCorrector<32, 16> for Sixteen {
    fn tile_correction(&mut self, burst: Burst<'_>, site: Site, sum: &mut [[i64; 32]; 16]) {
        let mut t0 = [[0u16; 32]; 16];
        let roots = sum_pair(&mut *self, burst, site, &mut t0, &mut *sum);
        if burst.merge.tuning.spatial == 0 {
            return;
        }
        filter_sums(burst.merge, &t0, roots.first, roots.second, &mut *sum);
    }
}
