// Pairs of tiles, read from a frame: T0, and its differences to Tz.
ghost use Rattle.std.specs.Prelude.{◌≡◌, ◌+◌, ◌≤◌, ◌<◌, ◌+ℤ◌, ◌-ℤ◌};
ghost use Rattle.merge_tiles.specs.Prelude.{pos, length, get_or, AtMost, tab, grid, cell, ValuesFit, sample_at, side_of, tile_at, tile_difference, scene_at};
ghost use Rattle.geometry.specs.Tiles.{origin};
ghost use Rattle.merge_view.specs.View.{Near};
ghost use Rattle.merge_tiles.specs.Sum.{TileFits, pair_at};
ghost use Rattle.merge_tiles.specs.Asked.{PairSize, Readable, Comparable};

use crate::{Burst, Site};
use geometry::Shape;
use geometry::vectors::{other_frame, vector_place};

// Where a tile begins that is moved by one part of a vector, where tiles stand `half` apart.
pub fn moved(half: usize, index: usize, part: i32) -> i64
    requires { record { apart : half ≤ 16; index_most : index ≤ 4096; part-most : AtMost 172 part } }
    ensures { record { is : result ≡ origin half index +ℤ part; near : Near result; beside : Near (result +ℤ pos 16) } }
{
    geometry::tiles::origin(half, index) + part as i64
}

// The difference of two samples.
pub fn minus(a: u16, b: u16) -> i16
    requires { (a ≤ 4095) × (b ≤ 4095) }
    ensures { result ≡ pos a -ℤ pos b }
{
    a as i16 - b as i16
}

// One row of T0 - Tz.
fn difference_row<const LANES: usize>(a: &[u16; LANES], b: &[u16; LANES]) -> [i16; LANES]
    requires { (ValuesFit a.now) × (ValuesFit b.now) }
    ensures { result ≡ tab LANES (λ j. pos (get_or a.now j 0) -ℤ pos (get_or b.now j 0)) }
{
    std::array::from_fn(
        |j: usize| -> i16
            requires { record { inside : j < LANES; first : ValuesFit a.now; second : ValuesFit b.now } }
            ensures { result ≡ pos (get_or a.entry.now j 0) -ℤ pos (get_or b.entry.now j 0) }
        { minus(a[j], b[j]) },
    )
}

// d: T0 - Tz.
fn difference<const LANES: usize, const SIDE: usize>(
    t0: &[[u16; LANES]; SIDE],
    tz: &[[u16; LANES]; SIDE],
    d: &mut [[i16; LANES]; SIDE],
)
    requires { record { reference : TileFits t0.now; other : TileFits tz.now } }
    ensures { d.new ≡ grid SIDE LANES (λ i l. pos (cell 0 t0.now i l) -ℤ pos (cell 0 tz.now i l)) }
{
    for i in 0..SIDE {
        d[i] = difference_row(&t0[i], &tz[i]);
    }
}

// tile: the pair of tiles of a frame, moved by a vector.
pub fn pair<const LANES: usize, const SIDE: usize>(
    shape: Shape,
    samples: &[u16],
    frame: usize,
    site: Site,
    down: i32,
    right: i32,
    tile: &mut [[u16; LANES]; SIDE],
)
    requires readable { Readable SIDE shape samples.now frame site down right tile.old }
    requires size { PairSize LANES SIDE }
    ensures { tile.new ≡ pair_at SIDE (λ r p. tile_at (side_of SIDE) shape.height shape.width r p (sample_at shape samples.now frame) down right) site }
{
    let y = moved(SIDE / 2, site.row, down);
    let x = moved(SIDE / 2, site.column, right);
    merge_view::frame_pair(shape, samples, frame, site.parity, y, x, &mut *tile);
}

// d: T0 - Tz of the k-th other frame, by way of tz.
pub fn differences<const LANES: usize, const SIDE: usize>(
    burst: Burst<'_>,
    site: Site,
    k: usize,
    t0: &[[u16; LANES]; SIDE],
    tz: &mut [[u16; LANES]; SIDE],
    d: &mut [[i16; LANES]; SIDE],
)
    requires comparable { Comparable SIDE (side_of SIDE) burst.merge burst.samples.now burst.vectors.now site k t0.now tz.old d.old }
    requires size { PairSize LANES SIDE }
    ensures are { d.new ≡ pair_at SIDE (λ r p a b. tile_difference (scene_at (side_of SIDE) burst.entry.merge burst.entry.samples.now burst.entry.vectors.now) r p a b k) site }
    ensures rows { length tz.new ≡ SIDE }
{
    let shape = burst.merge.shape;
    let place = vector_place(shape, k, site.row, site.column);
    let down = burst.vectors[place];
    let right = burst.vectors[place + 1];
    let frame = other_frame(burst.merge.reference, k);
    pair(shape, burst.samples, frame, site, down, right, &mut *tz);
    difference(t0, &*tz, &mut *d);
}
