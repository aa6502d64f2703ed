// Tiles of a level, and the coarse tiles that a tile's candidates come from.
ghost use Rattle.std.specs.Prelude.{◌≡◌, ◌+◌, ◌/◌, ◌<◌, ◌≤◌};
ghost use Rattle.algebra.specs.Bound.{AtMost};
ghost use Rattle.geometry.specs.Fits.{Allowed, TileSide};
ghost use Rattle.geometry.specs.Tiles.{tile_count, tile_rows, tile_columns, frame_parts, origin, own2, own4, own, neighbour2, neighbour4, neighbour, capped};

use crate::Shape;

// q of a step: how many fine tiles there are to a coarse one, each way.
#[derive(Clone, Copy)]
pub enum Quotient {
    One,
    Two,
    Four,
}

// How many tiles there are, one way.
pub fn tile_count(half: usize, size: usize) -> usize
    requires { record { some : 0 < half; most : half ≤ 16; size_most : size ≤ 4096 } }
    ensures { record { is : result ≡ tile_count half size; some : 0 < result; most : result ≤ size + 1 } }
{
    (size + (half - 1)) / half + 1
}

// How many tiles level 0 has, one way.
fn finest_count(side: usize, size: usize) -> usize
    requires { (TileSide side) × (size ≤ 4096) }
    ensures { (result ≡ size / side + 1) × (result ≤ 257) }
{
    if side == 32 {
        return size / 32 + 1;
    }
    size / 16 + 1
}

// The rows of level 0's tiles.
pub fn tile_rows(shape: Shape) -> usize
    requires { (Allowed shape) × (TileSide shape.side) }
    ensures { (result ≡ tile_rows shape) × (result ≤ 257) }
{
    finest_count(shape.side, shape.height)
}

// Their columns.
pub fn tile_columns(shape: Shape) -> usize
    requires { (Allowed shape) × (TileSide shape.side) }
    ensures { (result ≡ tile_columns shape) × (result ≤ 257) }
{
    finest_count(shape.side, shape.width)
}

// How many parts the vectors of one frame have.
pub fn frame_parts(shape: Shape) -> usize
    requires { (Allowed shape) × (TileSide shape.side) }
    ensures { (result ≡ frame_parts shape) × (result ≤ 132098) }
{
    2 * (tile_rows(shape) * tile_columns(shape))
}

// Where a tile begins, one way.
pub fn origin(half: usize, index: usize) -> i64
    requires { (half ≤ 16) × (index ≤ 4096) }
    ensures { (result ≡ origin half index) × (AtMost 65552 result) }
{
    (half * index) as i64 - half as i64
}

// The own coarse index of tile `a`, for q = 2, by its remainder.
fn own_2(a: usize) -> usize
    requires { a ≤ 4096 }
    ensures { result ≡ own2 a 0 }
{
    match a % 2 {
        0 => a / 2,
        _ => a / 2 + 1,
    }
}

// The same for q = 4.
fn own_4(a: usize) -> usize
    requires { a ≤ 4096 }
    ensures { result ≡ own4 a 0 }
{
    match a % 4 {
        0 => a / 4,
        1 => a / 4,
        2 => a / 4 + 1,
        _ => a / 4 + 1,
    }
}

// The own coarse index of tile `a`, one way.
pub fn own(q: Quotient, a: usize) -> usize
    requires { a ≤ 4096 }
    ensures { result ≡ own q a }
{
    match q {
        Quotient::One => a,
        Quotient::Two => own_2(a),
        Quotient::Four => own_4(a),
    }
}

// The neighbour of tile `a`, for q = 2, by its remainder.
fn neighbour_2(a: usize) -> usize
    requires { a ≤ 4096 }
    ensures { result ≡ neighbour2 a 0 }
{
    match a % 2 {
        0 => a / 2 + 1,
        _ => a / 2,
    }
}

// The same for q = 4.
fn neighbour_4(a: usize) -> usize
    requires { a ≤ 4096 }
    ensures { result ≡ neighbour4 a 0 }
{
    match a % 4 {
        0 => a / 4 + 1,
        1 => a / 4 + 1,
        2 => a / 4,
        _ => a / 4,
    }
}

// The neighbour of tile `a`, one way.
pub fn neighbour(q: Quotient, a: usize) -> usize
    requires { a ≤ 4096 }
    ensures { result ≡ neighbour q a }
{
    match q {
        Quotient::One => a + 1,
        Quotient::Two => neighbour_2(a),
        Quotient::Four => neighbour_4(a),
    }
}

// `index`, or the last of `count` where it lies past that.
pub fn capped(count: usize, index: usize) -> usize
    requires { 0 < count }
    ensures { (result ≡ capped count index) × (result < count) }
{
    if index < count { index } else { count - 1 }
}
