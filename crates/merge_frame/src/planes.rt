// The two planes of a row parity: as many rows of the frame at a time as a tile has, half of them of the parity, between two rows of pairs of tiles.
ghost use Rattle.std.specs.Prelude.{◌*◌, ◌/◌, ◌<◌, ◌≤◌};
ghost use Rattle.merge_frame.specs.Prelude.{length, scene_of, Accepted, row_words, Stored};
ghost use Rattle.merge_frame.specs.Ready.{ParityReady, BandReady};
ghost use Rattle.merge_frame.specs.Progress.{RowsMerged, BandMerged};

use merge_gather::output_row;
use merge_tiles::Burst;

// The corrections of each pair of a row, of either side.
fn correction_row(burst: Burst<'_>, parity: usize, row: usize, work: &mut [i64])
    requires { record { accepted : Accepted burst.merge.shape.side burst.merge burst.samples.now burst.vectors.now; parity : parity < 2; row-most : row ≤ burst.merge.shape.height / burst.merge.shape.side; room : 2 * row_words burst.merge.shape.side burst.merge.shape.width ≤ length work.old } }
    ensures { Stored burst.entry.merge.shape.side (scene_of burst.entry.merge burst.entry.samples.now burst.entry.vectors.now) parity row work.old work.new }
{
    if burst.merge.shape.side == 32 {
        merge_tiles32::rows::correction_row(burst, parity, row, &mut *work);
        return;
    }
    merge_tiles::rows::correction_row(burst, parity, row, &mut *work);
}

// The rows between the tile rows `band`, which the work area holds, and `band` + 1, of an output that begins at the tile row `first`.
fn merge_band(
    burst: Burst<'_>,
    parity: usize,
    first: usize,
    band: usize,
    output: &mut [u16],
    work: &mut [i64],
)
    requires { BandReady burst.merge burst.samples.now burst.vectors.now parity first band (length output.old) work.old }
    ensures { BandMerged burst.entry.merge.shape.side (scene_of burst.entry.merge burst.entry.samples.now burst.entry.vectors.now) (burst.entry.merge.shape.side * first) parity band output.old output.new work.new }
{
    correction_row(burst, parity, band + 1, &mut *work);
    let m = burst.merge;
    let shape = m.shape;
    let half = shape.side / 2;
    let top = shape.side * first;
    for i in 0..half {
        output_row(
            shape,
            m.reference,
            burst.samples,
            parity,
            half * band + i,
            top,
            &*work,
            &mut *output,
        );
    }
}

// The rows of a parity between the tile rows `first` and `last`.
pub fn merge_parity(
    burst: Burst<'_>,
    parity: usize,
    first: usize,
    last: usize,
    output: &mut [u16],
    work: &mut [i64],
)
    requires { ParityReady burst.merge burst.samples.now burst.vectors.now parity first last (length output.old) (length work.old) }
    ensures { RowsMerged (scene_of burst.entry.merge burst.entry.samples.now burst.entry.vectors.now) (burst.entry.merge.shape.side * first) parity (burst.entry.merge.shape.side / 2 * first) (burst.entry.merge.shape.side / 2 * last) output.old output.new }
{
    correction_row(burst, parity, first, &mut *work);
    for band in first..last {
        merge_band(burst, parity, first, band, &mut *output, &mut *work);
    }
}
