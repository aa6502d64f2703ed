// The sum of a 2 by 2 Bayer square of a frame: a value of level 0.
ghost use Rattle.std.specs.Prelude.{◌≡◌, ◌/◌, ◌<◌, ◌≤◌};
ghost use Rattle.geometry.specs.Read.{sample_at};
ghost use Rattle.align_pyramid.specs.Bayer.Bayer.{bayer_sum};
ghost use Rattle.align_pyramid.specs.Bayer.Frame.{Frame};

use geometry::Shape;
use geometry::read::sample_at;

// A sample of a frame.
fn sample(shape: Shape, frame: usize, samples: &[u16], row: usize, column: usize) -> u16
    requires { record { framed : Frame shape frame samples.now; row_in : row < shape.height; column-in : column < shape.width } }
    ensures { (result ≡ sample_at shape samples.now frame row column) × (result ≤ 4095) }
{
    sample_at(shape, samples, frame, row, column)
}

// The sum of a 2 by 2 Bayer square.
pub fn square_sum(shape: Shape, frame: usize, samples: &[u16], row: usize, column: usize) -> u16
    requires { record { framed : Frame shape frame samples.now; row_in : row < shape.height / 2; column-in : column < shape.width / 2 } }
    ensures { (result ≡ bayer_sum (sample_at shape samples.now frame) row column) × (result ≤ 16380) }
{
    let a = sample(shape, frame, samples, 2 * row, 2 * column);
    let b = sample(shape, frame, samples, 2 * row, 2 * column + 1);
    let c = sample(shape, frame, samples, 2 * row + 1, 2 * column);
    let d = sample(shape, frame, samples, 2 * row + 1, 2 * column + 1);
    a + b + c + d
}
