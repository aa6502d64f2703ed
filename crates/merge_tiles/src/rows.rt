// Rows of pairs of correction tiles in the work area, by halves of the pairs, and a place for a row of either parity.
ghost use Rattle.std.specs.Prelude.{◌≡◌, ◌+◌, ◌-◌, ◌*◌, ◌/◌, ◌≤◌, ◌<◌};
ghost use Rattle.merge_tiles.specs.Prelude.{pos, length, get_or, cell, written, side16, side_of, scene_at};
ghost use Rattle.merge_tiles.specs.Accepted.{Accepted};
ghost use Rattle.merge_tiles.specs.Rows.{row_words, slot_of, Stored, Spread};
ghost use Rattle.merge_tiles.specs.Asked.{PairSize};

use crate::correcting::{Sixteen, TileCorrector};
use crate::{Burst, Site};
use geometry::tiles::tile_columns;

// Words are stored from a place on. By `copy_from_slice` the archive would ask for memmove.
fn store_block(work: &mut [i64], at: usize, words: &[i64])
    requires { at + length words.now ≤ length work.old }
    ensures { work.new ≡ written work.old at (λ j. get_or words.now j (pos 0)) (length words.now) }
{
    for j in 0..words.len() {
        work[at + j] = words[j];
    }
}

// Half of each row of a pair is stored, one after the other.
fn store_half<const LANES: usize, const SIDE: usize>(
    work: &mut [i64],
    at: usize,
    tile: &[[i64; LANES]; SIDE],
    from: usize,
)
    requires { record { room : at + SIDE * SIDE ≤ length work.old; inside : from ≤ SIDE; size : PairSize LANES SIDE } }
    ensures { Spread (Unit {0}) (λ i j. cell (pos 0) tile.now i (from + j)) at SIDE SIDE SIDE work.old work.new }
{
    for i in 0..SIDE {
        store_block(&mut *work, at + SIDE * i, &tile[i][from..from + SIDE]);
    }
}

// The left half of pair `column` of a row whose words start at `start`, unless it lies outside the frame.
pub fn store_left<const LANES: usize, const SIDE: usize>(
    work: &mut [i64],
    start: usize,
    column: usize,
    tile: &[[i64; LANES]; SIDE],
)
    requires room { start + 2 * (SIDE * SIDE) * column ≤ length work.old }
    requires size { PairSize LANES SIDE }
    ensures { Spread (0 < column) (λ i j. cell (pos 0) tile.now i (0 + j)) (start + 2 * (SIDE * SIDE) * (column - 1)) SIDE SIDE SIDE work.old work.new }
{
    if column == 0 {
        return;
    }
    store_half(
        &mut *work,
        start + 2 * (SIDE * SIDE) * (column - 1),
        tile,
        0,
    );
}

// The right half likewise, of a row of `blocks` blocks.
pub fn store_right<const LANES: usize, const SIDE: usize>(
    work: &mut [i64],
    start: usize,
    blocks: usize,
    column: usize,
    tile: &[[i64; LANES]; SIDE],
)
    requires room { start + 2 * (SIDE * SIDE) * blocks ≤ length work.old }
    requires within { column ≤ blocks }
    requires size { PairSize LANES SIDE }
    ensures { Spread (column < blocks) (λ i j. cell (pos 0) tile.now i (SIDE + j)) (start + (2 * (SIDE * SIDE) * column + SIDE * SIDE)) SIDE SIDE SIDE work.old work.new }
{
    if column == blocks {
        return;
    }
    store_half(
        &mut *work,
        start + (2 * (SIDE * SIDE) * column + SIDE * SIDE),
        tile,
        SIDE,
    );
}

// Where a row of pairs of tiles of a side starts: two halves are over each block.
pub fn slot(side: usize, width: usize, row: usize) -> usize
    requires { (side ≤ 32) × (width ≤ 4096) }
    ensures { record { is : result ≡ slot_of side width row; in_area : result ≤ row_words side width; most : result ≤ 262144 } }
{
    row % 2 * (2 * side * width)
}

// The corrections of each pair of a row of tiles of one side.
pub fn row_by<const LANES: usize, const SIDE: usize, C: TileCorrector<LANES, SIDE>>(
    corrector: &mut C,
    burst: Burst<'_>,
    parity: usize,
    row: usize,
    work: &mut [i64],
)
    requires { record { ready : C.ready corrector.old; accepted : Accepted SIDE burst.merge burst.samples.now burst.vectors.now; parity : parity < 2; row-most : row ≤ burst.merge.shape.height / SIDE; room : 2 * row_words SIDE burst.merge.shape.width ≤ length work.old } }
    ensures { Stored SIDE (scene_at (side_of SIDE) burst.entry.merge burst.entry.samples.now burst.entry.vectors.now) parity row work.old work.new }
{
    let shape = burst.merge.shape;
    let start = slot(SIDE, shape.width, row);
    let blocks = shape.width / SIDE;
    let columns = tile_columns(shape);
    for column in 0..columns {
        let site = Site {
            parity,
            row,
            column,
        };
        let mut sum = [[0i64; LANES]; SIDE];
        corrector.tile_correction(burst, site, &mut sum);
        store_left(&mut *work, start, column, &sum);
        store_right(&mut *work, start, blocks, column, &sum);
    }
}

// Those of side 16. Apart from its caller, which has either side, so that neither takes the other's stack.
#[inline(never)]
pub fn correction_row(burst: Burst<'_>, parity: usize, row: usize, work: &mut [i64])
    requires { record { accepted : Accepted 16 burst.merge burst.samples.now burst.vectors.now; parity : parity < 2; row-most : row ≤ burst.merge.shape.height / 16; room : 2 * row_words 16 burst.merge.shape.width ≤ length work.old } }
    ensures { Stored 16 (scene_at side16 burst.entry.merge burst.entry.samples.now burst.entry.vectors.now) parity row work.old work.new }
{
    row_by(&mut Sixteen, burst, parity, row, &mut *work);
}
