// The lengths of the lent buffers, and the tests on them: refusals 4 to 7.
ghost use Rattle.std.specs.Prelude.{◌≡◌, ◌≤◌};
ghost use Rattle.admit_length.specs.Prelude.{sample_length, vector_length, output_length, work_length, length_refusal, Allowed, TileSide};
ghost use Rattle.admit_length.specs.Residuals.{residual_length};
ghost use Rattle.refusals.specs.Refused.{answer_of, refusal_number};

use geometry::Shape;
use geometry::tiles::{frame_parts, tile_columns, tile_rows};
use refusals::{Refusal, refuse};

// Words of samples: count times a frame's, spare ones included.
pub fn sample_length(shape: Shape) -> usize
    requires { Allowed shape }
    ensures { (result ≡ sample_length shape) × (result ≤ 142606336) }
{
    shape.count * (shape.pitch * shape.height)
}

// Words of vectors: two to a tile, for each frame but the reference.
pub fn vector_length(shape: Shape) -> usize
    requires { (Allowed shape) × (TileSide shape.side) }
    ensures { (result ≡ vector_length shape) × (result ≤ 924686) }
{
    (shape.count - 1) * frame_parts(shape)
}

// Words of residuals: one to a tile, for each frame but the reference.
pub fn residual_length(shape: Shape) -> usize
    requires { (Allowed shape) × (TileSide shape.side) }
    ensures { (result ≡ residual_length shape) × (result ≤ 462343) }
{
    (shape.count - 1) * (tile_rows(shape) * tile_columns(shape))
}

// Words of output: a frame's samples.
pub fn output_length(shape: Shape) -> usize
    requires { Allowed shape }
    ensures { (result ≡ output_length shape) × (result ≤ 16777216) }
{
    shape.width * shape.height
}

// Words of work: two to a sample of a frame.
pub fn work_length(shape: Shape) -> usize
    requires { Allowed shape }
    ensures { (result ≡ work_length shape) × (result ≤ 33554432) }
{
    2 * (shape.width * shape.height)
}

// The test of a buffer of `length`, whose right length is `right`.
#[tactic(auto, unfolding(geometry::specs::Shape::length_refusal))]
pub fn length_refusal(refusal: Refusal, right: usize, length: usize) -> Result<(), Refusal>
    ensures { answer_of result ≡ length_refusal (refusal_number refusal) right length }
{
    refuse(refusal, length != right)
}
