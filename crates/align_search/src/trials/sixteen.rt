// Offsets of tiles of side 16 by absolute differences, in windows of side 24.
ghost use Rattle.align_search.specs.Trials.Prelude.{false};

use crate::trials::{Trial, Tried, clipped, leave};
use align_residual::sixteen::{absolute_pair, absolute_row};

pub struct Absolute;

// Two rows at a time, left as soon as their total reaches `low`. Only then is the first of the two summed by itself, to tell at which of them it was
// reached.
impl Trial for Absolute {
    ghost squared = { false };

    ghost side = { 16 };

    fn try_offset(tile: &[u16], window: &[u16], y: usize, x: usize, low: u64) -> Tried {
        let start = y * 24 + x;
        let limit = clipped(low);
        let mut sum: u32 = 0;
        for i in 0..8 {
            let both = sum + absolute_pair::<24>(tile, window, 32 * i, start + 48 * i);
            if both >= limit {
                let first = sum + absolute_row(tile, window, 32 * i, start + 48 * i);
                return leave(first >= limit, 2 * i);
            }
            sum = both;
        }
        Tried {
            least: Some(sum as u64),
            rows: 16,
        }
    }
}
