// The low and the high frame of a burst whose noise is known only as a range (request L14): both ends of a row of pairs of tiles, then the rows of both frames
// above it, one row parity after the other.
#![tactic(auto)]

mod planes;

ghost use Rattle.std.specs.Prelude.{length};
ghost use Rattle.range_frame.specs.Ready.{RangeLent, FramesRanged};

use merge_tiles::Burst;
use range_tiles::Upper;
use recipe::Merge;

// Both frames, of input that has passed the tests; it neither tests nor clears. The work area's words are left as they come.
pub fn range_frames(
    m: Merge,
    upper: Upper,
    samples: &[u16],
    vectors: &[i32],
    low: &mut [u16],
    high: &mut [u16],
    work: &mut [i64],
)
    requires { RangeLent m upper samples.now vectors.now (length low.old) (length high.old) (length work.old) }
    ensures { FramesRanged m upper samples.now vectors.now low.new high.new }
{
    let burst = Burst {
        merge: m,
        samples,
        vectors,
    };
    planes::range_parity(burst, upper, 0, &mut *low, &mut *high, &mut *work);
    planes::range_parity(burst, upper, 1, &mut *low, &mut *high, &mut *work);
}
