// Where samples stand, and reading outside.
ghost use Rattle.std.specs.Prelude.{◌≡◌, ◌*◌, ◌%◌, ◌^◌, ◌≤◌, ◌<◌};
ghost use Rattle.std.specs.Int.Signed.{mag};
ghost use Rattle.geometry.specs.Shape.{sample_length};
ghost use Rattle.geometry.specs.Read.{sample_index, sample_at, mirrored, inside};
ghost use Rattle.geometry.specs.Fits.{Allowed, Placed, Sampled};

use crate::Shape;

// Where the sample of a frame at a row and a column stands.
pub fn sample_index(shape: Shape, frame: usize, row: usize, column: usize) -> usize
    requires { (Allowed shape) × (Placed shape frame row column) }
    ensures { (result ≡ sample_index shape frame row column) × (result < sample_length shape) }
{
    (frame * shape.height + row) * shape.pitch + column
}

// The sample of a frame at a row and a column.
pub fn sample_at(shape: Shape, samples: &[u16], frame: usize, row: usize, column: usize) -> u16
    requires { (Sampled shape samples.now) × (Placed shape frame row column) }
    ensures { result ≡ sample_at shape samples.now frame row column }
{
    let index = sample_index(shape, frame, row, column);
    samples[index]
}

// The index at a place of the first period: forward, then backward.
pub fn folded(place: usize, size: usize) -> usize
    requires { record { some : 0 < size; most : size ≤ 2 ^ 32; place_in : place < 2 * size } }
    ensures { (result ≡ mirrored size place) × (result < size) }
{
    if place < size {
        return place;
    }
    2 * size - 1 - place
}

// The index at place k of the mirrored ones, k from 0 on. A remainder is taken only beyond the first period; within it the data decides no branch.
fn mirrored(k: usize, size: usize) -> usize
    requires { (0 < size) × (size ≤ 2 ^ 32) }
    ensures { (result ≡ mirrored size (k % (2 * size))) × (result < size) }
{
    if k < 2 * size {
        return folded(k, size);
    }
    folded(k % (2 * size), size)
}

// How far z lies from 0, or from −1 where it is negative: both ways the places are numbered from 0 on.
pub fn distance(z: i64) -> usize
    ensures { result ≡ mag z }
{
    if z < 0 {
        return (-1 - z) as usize;
    }
    z as usize
}

// The index that is read for `z` among `size` of them.
pub fn inside(z: i64, size: usize) -> usize
    requires { (0 < size) × (size ≤ 2 ^ 32) }
    ensures { (result ≡ inside size z) × (result < size) }
{
    mirrored(distance(z), size)
}
