// What is taken from a pair of tiles where the noise is known only as a range (request L14): P of the greatest and of the least sums, summed over the other frames.
#![tactic(auto)]

pub mod rows;

ghost use Rattle.std.specs.Prelude.{◌≤◌};
ghost use Rattle.range_tiles.specs.Prelude.{side16, scene_at};
ghost use Rattle.range_tiles.specs.EndSums.{NoisesAre, SumsLent, EndsSummed, PairLent, EndsTaken, at_noises};

use merge_tiles::correcting::plane_black;
use merge_tiles::reading::{differences, pair};
use merge_tiles::{Burst, Site};
use range_pair::{Noises, add_ends};

// Ls and Lr of the upper noise; those of the lower one are the merge's own.
#[derive(Clone, Copy)]
pub struct Upper {
    pub shot: u64,
    pub read: u64,
}

// V of a pair of tiles by their r.
fn noises(strength: u64, shot: u64, read: u64, first: u64, second: u64) -> Noises
    requires { record { strength_most : strength ≤ 1024; shot_most : shot ≤ 65536; read_most : read ≤ 4194304; first_most : first ≤ 65520; second_most : second ≤ 65520 } }
    ensures { NoisesAre strength shot read first second result }
{
    let a = noise::noise_number(strength, shot, read, first);
    let b = noise::noise_number(strength, shot, read, second);
    Noises {
        first: a,
        second: b,
    }
}

// P of both ends of a pair of tiles between their noise numbers, summed over the other frames from 0.
fn sum_ends(
    burst: Burst<'_>,
    site: Site,
    t0: &[[u16; 32]; 16],
    lower: Noises,
    upper: Noises,
    greatest: &mut [[i64; 32]; 16],
    least: &mut [[i64; 32]; 16],
)
    requires { SumsLent burst.merge burst.samples.now burst.vectors.now site t0.now lower upper greatest.old least.old }
    ensures { EndsSummed (scene_at side16 burst.entry.merge burst.entry.samples.now burst.entry.vectors.now) site lower upper greatest.new least.new }
{
    let others = burst.merge.shape.count - 1;
    let mut tz = [[0u16; 32]; 16];
    let mut d = [[0i16; 32]; 16];
    for k in 0..others {
        differences(burst, site, k, t0, &mut tz, &mut d);
        add_ends(&d, lower, upper, &mut *greatest, &mut *least);
    }
}

// The same; all 0 where the four V are.
fn summed(
    burst: Burst<'_>,
    site: Site,
    t0: &[[u16; 32]; 16],
    lower: Noises,
    upper: Noises,
    greatest: &mut [[i64; 32]; 16],
    least: &mut [[i64; 32]; 16],
)
    requires { SumsLent burst.merge burst.samples.now burst.vectors.now site t0.now lower upper greatest.old least.old }
    ensures { EndsSummed (scene_at side16 burst.entry.merge burst.entry.samples.now burst.entry.vectors.now) site lower upper greatest.new least.new }
{
    if lower.first + lower.second + upper.first + upper.second == 0 {
        return;
    }
    sum_ends(burst, site, t0, lower, upper, &mut *greatest, &mut *least);
}

// T0, r and V of a pair of tiles at both noises, and what both ends take from it, from 0.
pub fn tile_ends(
    burst: Burst<'_>,
    upper: Upper,
    site: Site,
    greatest: &mut [[i64; 32]; 16],
    least: &mut [[i64; 32]; 16],
)
    requires { PairLent burst.merge upper burst.samples.now burst.vectors.now site greatest.old least.old }
    ensures { at_noises EndsTaken burst.entry.merge upper burst.entry.samples.now burst.entry.vectors.now site greatest.new least.new }
{
    let m = burst.merge;
    let mut t0 = [[0u16; 32]; 16];
    pair(m.shape, burst.samples, m.reference, site, 0, 0, &mut t0);
    let first_black = plane_black(m.tuning, site.parity, 0);
    let second_black = plane_black(m.tuning, site.parity, 1);
    let roots = tile_root::pair_roots(first_black, second_black, &t0);
    let strength = m.tuning.strength;
    let low = noises(strength, m.shot, m.read, roots.first, roots.second);
    let high = noises(strength, upper.shot, upper.read, roots.first, roots.second);
    summed(burst, site, &t0, low, high, &mut *greatest, &mut *least);
}
