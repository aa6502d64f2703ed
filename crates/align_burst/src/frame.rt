// The four levels of one frame against the reference.
ghost use Rattle.std.specs.Prelude.{◌≡◌, ◌+◌, ◌*◌, ◌≤◌, ◌<◌, ◌^◌};
ghost use Rattle.align_burst.specs.Prelude.{length, Allowed, TileSide, frame_parts, level_at, Led, Few, Ends};
ghost use Rattle.align_burst.specs.Sites.{image_number, area_at, grid_at, after, level_in, level_rows_in, Site, LaidAt, Prepared, Coarse, Aligned};

use align_field::{Sums, finest_field, level_field};
use align_level::{Grid, Refinement, half_of};
use align_pyramid::images::Raster;
use align_tile::Area;
use geometry::Shape;
use geometry::tiles::tile_count;

// A level's tiles, whose vectors stand in the work area, and the tile rows that were summed for them and the levels before.
#[derive(Clone, Copy)]
struct Reach {
    grid: Grid,
    rows: u64,
}

// A level's number among a pyramid's six images.
fn image_number(level: usize) -> usize
    requires { level ≤ 3 }
    ensures { (result ≡ image_number level) × (result ≤ 5) }
{
    if level < 2 { level } else { 2 * level - 1 }
}

// How many of the frame's samples one of a level's stands for, each way.
fn scale_of(side: usize, level: usize) -> usize
    requires { level ≤ 3 }
    ensures { (result ≡ (level_at side level).scale) × (0 < result) }
{
    if level == 0 {
        return 2;
    }
    if level == 1 {
        return 4;
    }
    if level == 2 { 16 } else { 64 }
}

// Where a level's images stand.
pub fn area_at(shape: Shape, level: usize) -> Area
    requires { (Allowed shape) × (level ≤ 3) }
    ensures { result ≡ area_at shape level }
{
    let from = align_pyramid::offset(shape, image_number(level));
    let length = align_pyramid::offset(shape, 6);
    let scale = scale_of(shape.side, level);
    let height = shape.height / scale;
    let width = shape.width / scale;
    Area {
        reference: Raster {
            from,
            height,
            width,
        },
        other: Raster {
            from: length + from,
            height,
            width,
        },
    }
}

// A level's tiles, whose vectors stand from `at` on.
fn grid_at(shape: Shape, level: usize, at: usize) -> Grid
    requires { record { allowed : Allowed shape; sided : TileSide shape.side; level_most : level ≤ 3 } }
    ensures { result ≡ grid_at shape level at }
{
    let half = half_of(shape.side, level);
    let scale = scale_of(shape.side, level);
    Grid {
        at,
        rows: tile_count(half, shape.height / scale),
        columns: tile_count(half, shape.width / scale),
    }
}

// The place behind a grid's vectors.
fn after(grid: Grid) -> usize
    requires { (grid.at ≤ 2 ^ 32) × (Few grid.rows grid.columns) }
    ensures { result ≡ after grid }
{
    grid.at + 2 * (grid.rows * grid.columns)
}

// A level, from `at` on. Level 3 reads no coarse vectors.
fn lay_level(shape: Shape, work: &mut [i64], level: usize, coarse: Grid, at: usize) -> Reach
    requires { record { site : Site shape work.old level at; led : Led work.old level coarse; ends : Ends level coarse at } }
    ensures { LaidAt shape level at (level_in shape work.old level coarse) (level_rows_in shape work.old level coarse) work.old work.new result.grid result.rows }
{
    let area = area_at(shape, level);
    let grid = grid_at(shape, level, at);
    let step = Refinement {
        side: shape.side,
        level,
        coarse,
    };
    let rows = level_field(&mut *work, area, step, grid);
    Reach { grid, rows }
}

// Levels 3 to 1, behind the two pyramids.
fn coarse_levels(shape: Shape, work: &mut [i64]) -> Reach
    requires { Prepared shape work.old }
    ensures { Coarse shape work.old work.new result.grid result.rows }
{
    let base = 2 * align_pyramid::offset(shape, 6);
    let none = Grid {
        at: 0,
        rows: 0,
        columns: 0,
    };
    let third = lay_level(shape, &mut *work, 3, none, base);
    let coarsest = third.grid;
    let second = lay_level(shape, &mut *work, 2, coarsest, after(coarsest));
    let middle = second.grid;
    let first = lay_level(shape, &mut *work, 1, middle, after(middle));
    let grid = first.grid;
    Reach {
        grid,
        rows: third.rows + second.rows + first.rows,
    }
}

// The vectors at level 0, into the lent vectors from `to` on, the sum of their residuals, and the tile rows that were summed at all four levels.
pub fn align_levels(shape: Shape, work: &mut [i64], vectors: &mut [i32], to: usize) -> Sums
    requires { (Prepared shape work.old) × (to + frame_parts shape ≤ length vectors.old) }
    ensures { Aligned shape work.old vectors.old to work.new vectors.new result }
{
    let reach = coarse_levels(shape, &mut *work);
    let coarse = reach.grid;
    let area = area_at(shape, 0);
    let grid = grid_at(shape, 0, to);
    let finest = finest_field(&*work, area, shape.side, coarse, &mut *vectors, grid);
    Sums {
        residual: finest.residual,
        rows: reach.rows + finest.rows,
    }
}
