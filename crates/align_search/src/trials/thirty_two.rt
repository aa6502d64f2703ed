// Offsets of tiles of side 32 by absolute differences, in windows of side 40.
ghost use Rattle.align_search.specs.Trials.Prelude.{false};

use crate::trials::{Trial, Tried, clipped, leave};
use align_residual::thirty_two::absolute_row;

pub struct Absolute;

// As at side 16, but one row at a time, which is as many samples as two of side 16.
impl Trial for Absolute {
    ghost squared = { false };

    ghost side = { 32 };

    fn try_offset(tile: &[u16], window: &[u16], y: usize, x: usize, low: u64) -> Tried {
        let start = y * 40 + x;
        let limit = clipped(low);
        let mut sum: u32 = 0;
        for i in 0..32 {
            let total = sum + absolute_row(tile, window, 32 * i, start + 40 * i);
            if total >= limit {
                return leave(true, i);
            }
            sum = total;
        }
        Tried {
            least: Some(sum as u64),
            rows: 32,
        }
    }
}
