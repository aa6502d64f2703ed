// The finest residual of each tile of a burst's other frames, at lent vectors.
#![tactic(auto)]

ghost use Rattle.std.specs.Prelude.{◌≡◌, ◌+◌, ◌*◌, ◌<◌};
ghost use Rattle.align_measure.specs.Prelude.{false, length, written, TileSide, VectorsFit, sample_at, frame_tiles, residual, pair_in, Stored, Placed};
ghost use Rattle.align_patch.specs.Bounds.{Within};
ghost use Rattle.align_tile.specs.Magnitudes.{guess_most};
ghost use Rattle.align_field.specs.Loops.{Few};
ghost use Rattle.align_burst.specs.Burst.{BehindReference};
ghost use Rattle.align_measure.specs.Frames.{vector_in, residual_in, Lent, Measured, Ready, MeasuredBurst};

use align_burst::frame::area_at;
use align_level::tile_at;
use align_patch::copy_square;
use align_residual::Tile;
use align_tile::{Area, candidate_sum};
use geometry::Shape;
use geometry::tiles::{tile_columns, tile_rows};
use geometry::vectors::{Vector, other_frame};

// The residual of a tile at a vector. The arrays are long enough for either side.
fn residual_at(work: &[i64], area: Area, tile: Tile, v: Vector) -> u64
    requires { record { stored : Stored work.now area; placed : Placed tile; sided : TileSide tile.side; near : Within guess_most v } }
    ensures { result ≡ residual false (pair_in work.now area) tile v }
{
    let image = area.reference;
    let origin = tile.origin;
    let mut samples = [0u16; 1024];
    copy_square(work, image, origin, tile.side, &mut samples);
    let mut other = [0u16; 1024];
    candidate_sum(work, area, tile, &samples, &mut other, v)
}

// The lent vector at a place.
fn vector_at(vectors: &[i32], place: usize) -> Vector
    requires { (place + 1 < length vectors.now) × (VectorsFit vectors.now) }
    ensures { (result ≡ vector_in vectors.now place) × (Within guess_most result) }
{
    let down = vectors[place] as i64;
    let right = vectors[place + 1] as i64;
    Vector { down, right }
}

// The residuals of a frame's tiles, from `to` on; their vectors stand from twice that place on.
fn frame_residuals(
    work: &[i64],
    area: Area,
    side: usize,
    vectors: &[i32],
    residuals: &mut [u64],
    to: usize,
    rows: usize,
    columns: usize,
)
    requires { record { stored : Stored work.now area; sided : TileSide side; few : Few rows columns; lent : Lent to (rows * columns) vectors.now residuals.old } }
    ensures { residuals.new ≡ written residuals.old to (residual_in side (pair_in work.now area) columns vectors.now to) (rows * columns) }
{
    for k in 0..rows * columns {
        let tile = tile_at(side, 0, k / columns, k % columns);
        let v = vector_at(vectors, 2 * (to + k));
        residuals[to + k] = residual_at(work, area, tile, v);
    }
}

// The same of one frame of a burst: its pyramid is laid behind the reference's, which stands at the work area's start.
fn measure_frame(
    shape: Shape,
    reference: usize,
    frame: usize,
    samples: &[u16],
    vectors: &[i32],
    residuals: &mut [u64],
    to: usize,
    work: &mut [i64],
)
    requires { (BehindReference shape reference frame samples.now work.old) × (Lent to (frame_tiles shape) vectors.now residuals.old) }
    ensures { Measured shape (sample_at shape samples.now reference) (sample_at shape samples.now frame) vectors.now to residuals.old residuals.new work.old work.new }
{
    let at = align_pyramid::offset(shape, 6);
    align_pyramid::build(shape, frame, samples, &mut *work, at);
    let area = area_at(shape, 0);
    let rows = tile_rows(shape);
    let columns = tile_columns(shape);
    frame_residuals(
        &*work,
        area,
        shape.side,
        vectors,
        &mut *residuals,
        to,
        rows,
        columns,
    );
}

// The residuals of every tile of every other frame, in the order of the vectors. It neither tests nor clears.
pub fn measure_frames(
    shape: Shape,
    reference: usize,
    samples: &[u16],
    vectors: &[i32],
    residuals: &mut [u64],
    work: &mut [i64],
)
    requires { Ready shape reference samples.now vectors.now residuals.old work.old }
    ensures { MeasuredBurst shape reference samples.now vectors.now residuals.new work.old work.new }
{
    align_pyramid::build(shape, reference, samples, &mut *work, 0);
    let tiles = tile_rows(shape) * tile_columns(shape);
    for k in 0..shape.count - 1 {
        let frame = other_frame(reference, k);
        measure_frame(
            shape,
            reference,
            frame,
            samples,
            vectors,
            &mut *residuals,
            k * tiles,
            &mut *work,
        );
    }
}
