// The vectors of a level's tiles, one after the other.
#![tactic(auto)]

ghost use Rattle.std.specs.Prelude.{◌≡◌, ◌+◌, ◌*◌, ◌≤◌, ◌<◌};
ghost use Rattle.align_field.specs.Prelude.{length, set, found_most, Stored, Vectors, Led};
ghost use Rattle.geometry.specs.Fits.{TileSide};
ghost use Rattle.align_patch.specs.Bounds.{Within};
ghost use Rattle.align_field.specs.Loops.{Few, Ends, Room, Laid, field_in, rows_in, Finest};

use align_level::{Grid, Refinement, level_tile};
use align_tile::Area;
use geometry::vectors::Vector;

// A vector into the work area.
fn put(work: &mut [i64], at: usize, v: Vector)
    requires { (at + 1 < length work.old) × (Within found_most v) }
    ensures { work.new ≡ set (set work.old at v.down) (at + 1) v.right }
{
    let down = v.down;
    let right = v.right;
    work[at] = down;
    work[at + 1] = right;
}

// What a frame's finest level adds up: its residuals, and the tile rows that were summed.
#[derive(Clone, Copy)]
pub struct Sums {
    pub residual: u64,
    pub rows: u64,
}

// A level's tiles, whose vectors go into the grid's place in the work area, and the tile rows that were summed. Level 3 reads no coarse vectors.
pub fn level_field(work: &mut [i64], area: Area, step: Refinement, grid: Grid) -> u64
    requires { record { fits : Room work.old area grid.at grid.rows grid.columns; led : Led work.old step.level step.coarse; ends : Ends step.level step.coarse grid.at; sided : TileSide step.side } }
    ensures { Laid work.old grid.at grid.rows grid.columns (field_in step.side step.level work.old area step.coarse) (rows_in step.side step.level work.old area step.coarse grid.rows grid.columns) work.new result }
{
    let columns = grid.columns;
    let mut samples = [0u16; 1024];
    let mut window = [0u16; 1600];
    let mut other = [0u16; 1024];
    let mut summed: u64 = 0;
    for k in 0..grid.rows * columns {
        let found = level_tile(
            &*work,
            area,
            step,
            k / columns,
            k % columns,
            &mut samples,
            &mut window,
            &mut other,
        );
        let v = found.vector;
        put(&mut *work, grid.at + 2 * k, v);
        summed += found.rows;
    }
    summed
}

// Both parts of a vector, side by side.
fn set_parts(vectors: &mut [i32], at: usize, down: i32, right: i32)
    requires { at + 1 < length vectors.old }
    ensures { vectors.new ≡ set (set vectors.old at down) (at + 1) right }
{
    vectors[at] = down;
    vectors[at + 1] = right;
}

// A vector into the lent ones.
fn hand_over(vectors: &mut [i32], at: usize, v: Vector)
    requires { (at + 1 < length vectors.old) × (Within found_most v) }
    ensures { vectors.new ≡ set (set vectors.old at v.down) (at + 1) v.right }
{
    let down = v.down as i32;
    let right = v.right as i32;
    set_parts(&mut *vectors, at, down, right);
}

// Level 0 with tiles of a side, into the grid's place in the lent vectors, the sum of its residuals, and the tile rows that were summed.
// A loop of its own: the lent vectors are an array of another type than the work area.
pub fn finest_field(
    work: &[i64],
    area: Area,
    side: usize,
    coarse: Grid,
    vectors: &mut [i32],
    grid: Grid,
) -> Sums
    requires { record { stored : Stored work.now area; coarse_vectors : Vectors work.now coarse; sided : TileSide side; few : Few grid.rows grid.columns; room : grid.at + 2 * (grid.rows * grid.columns) ≤ length vectors.old } }
    ensures { Finest side work.now area coarse grid.rows grid.columns vectors.old grid.at vectors.new result }
{
    let columns = grid.columns;
    let step = Refinement {
        side,
        level: 0,
        coarse,
    };
    let mut samples = [0u16; 1024];
    let mut window = [0u16; 1600];
    let mut other = [0u16; 1024];
    let mut residual: u64 = 0;
    let mut rows: u64 = 0;
    for k in 0..grid.rows * columns {
        let found = level_tile(
            work,
            area,
            step,
            k / columns,
            k % columns,
            &mut samples,
            &mut window,
            &mut other,
        );
        let v = found.vector;
        hand_over(&mut *vectors, grid.at + 2 * k, v);
        residual += found.residual;
        rows += found.rows;
    }
    Sums { residual, rows }
}
