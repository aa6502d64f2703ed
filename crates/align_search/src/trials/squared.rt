// Offsets by squared differences, of tiles of side 8 and 16, in windows of 8 more.
ghost use Rattle.std.specs.Prelude.{◌≡◌, ◌+◌, ◌*◌, ◌%◌, ◌<◌, ◌≤◌};
ghost use Rattle.align_search.specs.Trials.Prelude.{true, square_row};
ghost use Rattle.align_search.specs.Trials.Trial.{InWindow, Left};

use crate::trials::{Trial, Tried, leave};
use align_residual::sixteen::squared_rows;

// Two rows at a time, left as soon as their total reaches `low`.
fn squared_offset<const SIDE: usize>(
    tile: &[u16],
    window: &[u16],
    y: usize,
    x: usize,
    low: u64,
) -> Tried
    requires { record { within : InWindow tile.now window.now SIDE y x; even : SIDE % 2 ≡ 0; some : 0 < SIDE; most : SIDE ≤ 16 } }
    ensures { Left low (square_row true tile.now window.now (y * (SIDE + 8) + x) (SIDE + 8) SIDE) SIDE result }
{
    let stride = SIDE + 8;
    let start = y * stride + x;
    let mut sum: u64 = 0;
    for i in 0..SIDE / 2 {
        let rows = squared_rows::<SIDE>(tile, window, 2 * i * SIDE, start + 2 * i * stride);
        let first = sum + rows.upper as u64;
        let both = first + rows.lower as u64;
        if both >= low {
            return leave(first >= low, 2 * i);
        }
        sum = both;
    }
    Tried {
        least: Some(sum),
        rows: SIDE as u64,
    }
}

pub struct Eight;

impl Trial for Eight {
    ghost squared = { true };

    ghost side = { 8 };

    fn try_offset(tile: &[u16], window: &[u16], y: usize, x: usize, low: u64) -> Tried {
        squared_offset::<8>(tile, window, y, x, low)
    }
}

pub struct Sixteen;

impl Trial for Sixteen {
    ghost squared = { true };

    ghost side = { 16 };

    fn try_offset(tile: &[u16], window: &[u16], y: usize, x: usize, low: u64) -> Tried {
        squared_offset::<16>(tile, window, y, x, low)
    }
}
