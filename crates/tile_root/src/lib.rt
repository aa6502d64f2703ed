// r, the whole root of the sum of the squares of a tile's samples above their black level, for a pair of planes of side 32 at most.
#![tactic(auto)]

mod squares;

ghost use Rattle.std.specs.Prelude.{◌≡◌, ◌+◌, ◌*◌, ◌<◌, ◌≤◌};
ghost use Rattle.tile_root.specs.Prelude.{get_or, sum_n, whole_root};
ghost use Rattle.tile_root.specs.Range.{IsPair, SamplesFit, LanesFit, PairRoots};

// r of the two planes of a pair of tiles.
#[derive(Clone, Copy)]
pub struct Roots {
    pub first: u64,
    pub second: u64,
}

// r of plane p of a pair, of the squares at each place of its rows.
fn plane_root<const LANES: usize, const SIDE: usize>(sum: &[u32; LANES], p: usize) -> u64
    requires { (p < 2) × (IsPair LANES SIDE) × (LanesFit LANES SIDE sum.now) }
    ensures { (result ≡ whole_root (sum_n SIDE (λ j. get_or sum.now (2 * j + p) 0))) × (result ≤ SIDE * 4095) }
{
    squares::whole_root(squares::plane_squares::<LANES, SIDE>(sum, p))
}

// r of both planes of a pair of tiles, of the black levels of its even and its odd places.
pub fn pair_roots<const LANES: usize, const SIDE: usize>(
    even: u16,
    odd: u16,
    tile: &[[u16; LANES]; SIDE],
) -> Roots
    requires { (IsPair LANES SIDE) × (SamplesFit tile.now) }
    ensures { PairRoots SIDE even odd tile.now result.first result.second }
{
    let black = squares::lane_blacks::<LANES>(even, odd);
    let sum = squares::lane_squares(&black, tile);
    let first = plane_root::<LANES, SIDE>(&sum, 0);
    let second = plane_root::<LANES, SIDE>(&sum, 1);
    Roots { first, second }
}
