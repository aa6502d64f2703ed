// Rows of pairs of correction tiles of side 32 in the work area.
ghost use Rattle.std.specs.Prelude.{◌*◌, ◌/◌, ◌≤◌, ◌<◌};
ghost use Rattle.merge_tiles32.specs.Prelude.{length, side32, scene_at, row_words, Stored};
ghost use Rattle.merge_tiles.specs.Accepted.{Accepted};

use crate::correcting::ThirtyTwo;
use merge_tiles::Burst;
use merge_tiles::rows::row_by;

// The corrections of each pair of a row. Apart from its caller, which has either side, so that neither takes the other's stack.
#[inline(never)]
pub fn correction_row(burst: Burst<'_>, parity: usize, row: usize, work: &mut [i64])
    requires { record { accepted : Accepted 32 burst.merge burst.samples.now burst.vectors.now; parity : parity < 2; row-most : row ≤ burst.merge.shape.height / 32; room : 2 * row_words 32 burst.merge.shape.width ≤ length work.old } }
    ensures { Stored 32 (scene_at side32 burst.entry.merge burst.entry.samples.now burst.entry.vectors.now) parity row work.old work.new }
{
    let mut corrector = ThirtyTwo {
        spare: [[0.0; 64]; 32],
    };
    row_by(&mut corrector, burst, parity, row, &mut *work);
}
