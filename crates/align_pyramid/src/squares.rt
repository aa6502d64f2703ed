// Level 0, the sums of the 2 by 2 Bayer squares, laid into the work area.
ghost use Rattle.std.specs.Prelude.{◌≡◌, ◌+◌, ◌*◌, ◌/◌, ◌<◌, ◌≤◌};
ghost use Rattle.align_pyramid.specs.Prelude.{length, sample_at, bayer_sum, Frame};
ghost use Rattle.align_pyramid.specs.Words.{laid, laid_row};

use crate::bayer::square_sum;
use geometry::Shape;

// One row of level 0, from `to` on.
fn square_row(shape: Shape, frame: usize, samples: &[u16], row: usize, work: &mut [i64], to: usize)
    requires { record { framed : Frame shape frame samples.now; row_in : row < shape.height / 2; room : to + shape.width / 2 ≤ length work.old } }
    ensures { work.new ≡ laid_row work.old to (shape.width / 2) (bayer_sum (sample_at shape samples.now frame)) row }
{
    for column in 0..shape.width / 2 {
        let value = square_sum(shape, frame, samples, row, column);
        work[to + column] = value as i64;
    }
}

// Level 0 of a frame, from `to` on.
pub fn lay_squares(shape: Shape, frame: usize, samples: &[u16], work: &mut [i64], to: usize)
    requires { (Frame shape frame samples.now) × (to + shape.height / 2 * (shape.width / 2) ≤ length work.old) }
    ensures { work.new ≡ laid work.old to (shape.height / 2) (shape.width / 2) (bayer_sum (sample_at shape samples.now frame)) }
{
    for row in 0..shape.height / 2 {
        let start = to + row * (shape.width / 2);
        square_row(shape, frame, samples, row, &mut *work, start);
    }
}
