// The merge of a burst: the corrections of a row of pairs of tiles, then the rows of the output above it, one row parity after the other.
#![tactic(auto)]

mod planes;

ghost use Rattle.std.specs.Prelude.{◌≡◌};
ghost use Rattle.merge_frame.specs.Prelude.{length, scene_of, merged};
ghost use Rattle.merge_frame.specs.Ready.{Lent, RowsLent};
ghost use Rattle.merge_frame.specs.Progress.{merged_rows};

use merge_tiles::Burst;
use recipe::Merge;

// The rows of the merge between the tile rows `first` and `last`, a side of them a tile row, into an output of just these rows, of input that has passed the tests; it
// neither tests nor clears. The work area's words are left as they come.
pub fn merge_rows(
    m: Merge,
    samples: &[u16],
    vectors: &[i32],
    first: usize,
    last: usize,
    output: &mut [u16],
    work: &mut [i64],
)
    requires { RowsLent m samples.now vectors.now first last (length output.old) (length work.old) }
    ensures { output.new ≡ merged_rows m.shape.side (scene_of m samples.now vectors.now) first last }
{
    let burst = Burst {
        merge: m,
        samples,
        vectors,
    };
    planes::merge_parity(burst, 0, first, last, &mut *output, &mut *work);
    planes::merge_parity(burst, 1, first, last, &mut *output, &mut *work);
}

// The merge: all of its rows.
pub fn merge_frames(
    m: Merge,
    samples: &[u16],
    vectors: &[i32],
    output: &mut [u16],
    work: &mut [i64],
)
    requires { Lent m samples.now vectors.now (length output.old) (length work.old) }
    ensures { output.new ≡ merged (scene_of m samples.now vectors.now) }
{
    let last = m.shape.height / m.shape.side;
    merge_rows(m, samples, vectors, 0, last, &mut *output, &mut *work);
}
