// Both ends of a row of pairs of tiles, in the work area.
ghost use Rattle.std.specs.Prelude.{◌≤◌, ◌≡◌};
ghost use Rattle.algebra.specs.Prelude.{length};
ghost use Rattle.range_tiles.specs.EndSums.{at_noises};
ghost use Rattle.range_tiles.specs.EndRows.{least_slot, EndRowLent, EndsStored};

use crate::{Upper, tile_ends};
use geometry::tiles::tile_columns;
use merge_tiles::rows::{slot, store_left, store_right};
use merge_tiles::{Burst, PAIR_WIDTH, SIDE, Site};

// Where a row of the least sums starts: behind two rows of the greatest.
fn least_slot(width: usize, row: usize) -> usize
    requires { width ≤ 4096 }
    ensures { result ≡ least_slot width row }
{
    4 * SIDE * width + slot(SIDE, width, row)
}

// What both ends take from each pair of a row.
pub fn end_row(burst: Burst<'_>, upper: Upper, parity: usize, row: usize, work: &mut [i64])
    requires { EndRowLent burst.merge upper burst.samples.now burst.vectors.now parity row (length work.old) }
    ensures { at_noises EndsStored burst.entry.merge upper burst.entry.samples.now burst.entry.vectors.now parity row work.old work.new }
{
    let shape = burst.merge.shape;
    let start = slot(SIDE, shape.width, row);
    let second = least_slot(shape.width, row);
    let blocks = shape.width / SIDE;
    let columns = tile_columns(shape);
    for column in 0..columns {
        let site = Site {
            parity,
            row,
            column,
        };
        let mut greatest = [[0i64; PAIR_WIDTH]; SIDE];
        let mut least = [[0i64; PAIR_WIDTH]; SIDE];
        tile_ends(burst, upper, site, &mut greatest, &mut least);
        store_left(&mut *work, start, column, &greatest);
        store_right(&mut *work, start, blocks, column, &greatest);
        store_left(&mut *work, second, column, &least);
        store_right(&mut *work, second, blocks, column, &least);
    }
}
