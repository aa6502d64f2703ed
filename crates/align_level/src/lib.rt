// The tiles of a level: each from a guess, and the guess from the coarse level's vectors.
#![tactic(auto)]

ghost use Rattle.std.specs.Prelude.{◌≡◌, ◌*◌, ◌%◌, ◌≤◌, ◌<◌, ◌*ℤ◌};
ghost use Rattle.align_level.specs.Prelude.{length, get_or, pos, nat_abs, TileSide, ◌times◌, Stored, Placed, Ready, Roomy};
ghost use Rattle.align_patch.specs.Bounds.{Within};
ghost use Rattle.align_level.specs.Fields.{level_at, level_tile};
ghost use Rattle.align_level.specs.Steps.{step_to};
ghost use Rattle.align_level.specs.Magnitudes.{coarse_most};
ghost use Rattle.align_tile.specs.Magnitudes.{guess_most};
ghost use Rattle.align_level.specs.Grids.{field_at, Vectors, Led, answer_at, Answered, LevelTile, Buffers, Chosen};

use align_patch::copy_square;
use align_residual::Tile;
use align_tile::{Area, Candidates, Found, refine, refine_candidates};
use geometry::tiles::{Quotient, capped, neighbour, origin, own};
use geometry::vectors::Vector;

// A level's rows and columns of tiles, and where their vectors stand in the work area, row by row.
#[derive(Clone, Copy)]
pub struct Grid {
    pub at: usize,
    pub rows: usize,
    pub columns: usize,
}

// f of the step to a level.
fn factor(side: usize, level: usize) -> usize
    requires { level ≤ 2 }
    ensures { (result ≡ (step_to side level).factor) × (result ≤ 4) }
{
    if level == 0 { 2 } else { 4 }
}

// q of the step to a level.
fn quotient(side: usize, level: usize) -> Quotient
    requires { level ≤ 2 }
    ensures { result ≡ (step_to side level).quotient }
{
    if level == 1 {
        return Quotient::Four;
    }
    if level == 2 {
        return Quotient::Two;
    }
    if side == 32 {
        Quotient::One
    } else {
        Quotient::Two
    }
}

// The half step of a level's tiles.
pub fn half_of(side: usize, level: usize) -> usize
    requires { (TileSide side) × (level ≤ 3) }
    ensures { record { is : result ≡ (level_at side level).half; twice : 2 * result ≡ (level_at side level).side; fours : result % 4 ≡ 0; some : 0 < result; most : result ≤ 16 } }
{
    if level == 3 {
        return 4;
    }
    if level == 0 { side / 2 } else { 8 }
}

// The tile at a row and a column of tiles.
pub fn tile_at(side: usize, level: usize, row: usize, column: usize) -> Tile
    requires { record { sided : TileSide side; level_most : level ≤ 3; row-most : row ≤ 4096; column-most : column ≤ 4096 } }
    ensures { (result ≡ level_tile (level_at side level) row column) × (Placed result) }
{
    let half = half_of(side, level);
    let corner = Vector {
        down: origin(half, row),
        right: origin(half, column),
    };
    Tile {
        side: 2 * half,
        origin: corner,
    }
}

// A part of a coarse vector, times f.
fn coarse_part(words: &[i64], k: usize, f: usize) -> i64
    requires { record { inside : k < length words.now; small : nat_abs (get_or words.now k (pos 0)) ≤ coarse_most; factor-most : f ≤ 4 } }
    ensures { (result ≡ get_or words.now k (pos 0) *ℤ pos f) × (nat_abs result ≤ guess_most) }
{
    words[k] * f as i64
}

// A coarse vector, times f.
fn coarse_vector(words: &[i64], coarse: Grid, row: usize, column: usize, f: usize) -> Vector
    requires { record { vectors : Vectors words.now coarse; row_below : row < coarse.rows; column_below : column < coarse.columns; factor-most : f ≤ 4 } }
    ensures { (result ≡ field_at words.now coarse.at coarse.columns row column times f) × (Within guess_most result) }
{
    let k = coarse.at + 2 * (row * coarse.columns + column);
    let down = coarse_part(words, k, f);
    let right = coarse_part(words, k + 1, f);
    Vector { down, right }
}

// Whether a level's residuals are of squared differences.
fn is_squared(side: usize, level: usize) -> bool
    requires { level ≤ 3 }
    ensures { result ≡ (level_at side level).squared }
{
    level != 0
}

// The step to a level, with level 0's tiles of a side, from the vectors of the coarser level. Level 3 has none.
#[derive(Clone, Copy)]
pub struct Refinement {
    pub side: usize,
    pub level: usize,
    pub coarse: Grid,
}

// The vectors around a tile, times f, that its guess is chosen from.
fn candidates(words: &[i64], step: Refinement, row: usize, column: usize) -> Candidates
    requires { record { finer : step.level ≤ 2; vectors : Vectors words.now step.coarse; row-most : row ≤ 4096; column-most : column ≤ 4096 } }
    ensures { Chosen step.side step.level words.now step.coarse row column result.own result.sideways result.vertically }
{
    let coarse = step.coarse;
    let q = quotient(step.side, step.level);
    let f = factor(step.side, step.level);
    let own_row = capped(coarse.rows, own(q, row));
    let next_row = capped(coarse.rows, neighbour(q, row));
    let own_column = capped(coarse.columns, own(q, column));
    let next_column = capped(coarse.columns, neighbour(q, column));
    Candidates {
        own: coarse_vector(words, coarse, own_row, own_column, f),
        sideways: coarse_vector(words, coarse, own_row, next_column, f),
        vertically: coarse_vector(words, coarse, next_row, own_column, f),
    }
}

// The vector of a tile, whose samples are at hand, at level 3 from (0,0). `window` and `other` are for samples of the other image.
fn refine_level(
    words: &[i64],
    area: Area,
    tile: Tile,
    step: Refinement,
    row: usize,
    column: usize,
    samples: &[u16],
    window: &mut [u16],
    other: &mut [u16],
) -> Found
    requires { record { at : LevelTile words.now area tile step.side step.level step.coarse row column; ready : Ready words.now area tile samples.now; roomy : Roomy tile (length samples.now) (length window.old) (length other.old) } }
    ensures { Answered (answer_at step.side step.level words.now area step.coarse row column) result }
{
    if step.level == 3 {
        return refine(
            words,
            area,
            tile,
            samples,
            &mut *window,
            true,
            Vector { down: 0, right: 0 },
            0,
        );
    }
    let around = candidates(words, step, row, column);
    let squared = is_squared(step.side, step.level);
    refine_candidates(
        words,
        area,
        tile,
        samples,
        &mut *window,
        &mut *other,
        squared,
        around,
    )
}

// The vector of a tile of a level. Its samples are copied once, for the candidates and for the search. `samples`, `window` and `other` are for samples, of
// either side; they are slices, since `room` lets a caller lend longer ones.
pub fn level_tile(
    words: &[i64],
    area: Area,
    step: Refinement,
    row: usize,
    column: usize,
    samples: &mut [u16],
    window: &mut [u16],
    other: &mut [u16],
) -> Found
    requires { record { stored : Stored words.now area; led : Led words.now step.level step.coarse; sided : TileSide step.side; row-most : row ≤ 4096; column-most : column ≤ 4096; room : Buffers (length samples.old) (length window.old) (length other.old) } }
    ensures { Answered (answer_at step.side step.level words.now area step.coarse row column) result }
{
    let tile = tile_at(step.side, step.level, row, column);
    let image = area.reference;
    let origin = tile.origin;
    copy_square(words, image, origin, tile.side, &mut *samples);
    refine_level(
        words,
        area,
        tile,
        step,
        row,
        column,
        &*samples,
        &mut *window,
        &mut *other,
    )
}
