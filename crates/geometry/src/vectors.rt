// Vectors, where they stand among the lent ones, and the frames that they are of.
ghost use Rattle.std.specs.Prelude.{◌≡◌, ◌+◌, ◌≤◌, ◌<◌};
ghost use Rattle.geometry.specs.Shape.{vector_length};
ghost use Rattle.geometry.specs.Fits.{Allowed, TileSide};
ghost use Rattle.geometry.specs.Tiles.{tile_rows, tile_columns};
ghost use Rattle.geometry.specs.Vectors.{other_frame, vector_place};

use crate::Shape;
use crate::tiles::{frame_parts, tile_columns};

// A displacement in whole samples.
#[derive(Clone, Copy)]
pub struct Vector {
    pub down: i64,
    pub right: i64,
}

// The k-th frame beside the reference.
pub fn other_frame(reference: usize, k: usize) -> usize
    requires { k < 8 }
    ensures { (result ≡ other_frame reference k) × (result ≤ k + 1) }
{
    if k < reference { k } else { k + 1 }
}

// Where the vector of a tile stands, for the k-th other frame.
pub fn vector_place(shape: Shape, k: usize, row: usize, column: usize) -> usize
    requires { record { allowed : Allowed shape; sided : TileSide shape.side; other : k + 1 < shape.count; row_in : row < tile_rows shape; column-in : column < tile_columns shape } }
    ensures { (result ≡ vector_place shape k row column) × (result + 1 < vector_length shape) }
{
    k * frame_parts(shape) + 2 * (row * tile_columns(shape) + column)
}
