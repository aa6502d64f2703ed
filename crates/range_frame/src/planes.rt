// The two planes of a row parity of both frames: sixteen rows of the frame at a time, half of them of the parity, between two rows of pairs of tiles.
ghost use Rattle.std.specs.Prelude.{◌*◌, ◌/◌};
ghost use Rattle.range_frame.specs.Prelude.{length, at_noises};
ghost use Rattle.range_frame.specs.Held.{RowsOut, RowsRanged, BandRanged};
ghost use Rattle.range_frame.specs.Ready.{RowsReady, ParityReady, BandReady};

use geometry::Shape;
use merge_gather::output_row;
use merge_tiles::{Burst, HALF_SIDE, SIDE};
use range_tiles::Upper;
use range_tiles::rows::end_row;

// Row y of a row parity of both frames: the low one's from the greatest sums, the high one's from the least.
fn output_rows(
    shape: Shape,
    reference: usize,
    samples: &[u16],
    parity: usize,
    y: usize,
    work: &[i64],
    low: &mut [u16],
    high: &mut [u16],
)
    requires { RowsReady shape reference parity y (length samples.now) (length low.old) (length high.old) work.now }
    ensures { RowsOut shape reference parity y samples.now work.now low.old low.new high.old high.new }
{
    let second = 4 * SIDE * shape.width;
    output_row(shape, reference, samples, parity, y, 0, work, &mut *low);
    output_row(
        shape,
        reference,
        samples,
        parity,
        y,
        0,
        &work[second..],
        &mut *high,
    );
}

// The rows between the tile rows `band`, which the work area holds, and `band` + 1.
fn range_band(
    burst: Burst<'_>,
    upper: Upper,
    parity: usize,
    band: usize,
    low: &mut [u16],
    high: &mut [u16],
    work: &mut [i64],
)
    requires { BandReady burst.merge upper burst.samples.now burst.vectors.now parity band (length low.old) (length high.old) work.old }
    ensures { at_noises BandRanged burst.entry.merge upper burst.entry.samples.now burst.entry.vectors.now parity band low.old low.new high.old high.new work.new }
{
    end_row(burst, upper, parity, band + 1, &mut *work);
    let m = burst.merge;
    for i in 0..HALF_SIDE {
        output_rows(
            m.shape,
            m.reference,
            burst.samples,
            parity,
            HALF_SIDE * band + i,
            &*work,
            &mut *low,
            &mut *high,
        );
    }
}

// All rows of a parity.
pub fn range_parity(
    burst: Burst<'_>,
    upper: Upper,
    parity: usize,
    low: &mut [u16],
    high: &mut [u16],
    work: &mut [i64],
)
    requires { ParityReady burst.merge upper burst.samples.now burst.vectors.now parity (length low.old) (length high.old) (length work.old) }
    ensures { at_noises RowsRanged burst.entry.merge upper burst.entry.samples.now burst.entry.vectors.now parity 0 (8 * (burst.entry.merge.shape.height / 16)) low.old low.new high.old high.new }
{
    end_row(burst, upper, parity, 0, &mut *work);
    let bands = burst.merge.shape.height / SIDE;
    for band in 0..bands {
        range_band(
            burst, upper, parity, band, &mut *low, &mut *high, &mut *work,
        );
    }
}
