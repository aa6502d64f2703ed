// The pyramid of a frame: level 0, halving, and the four levels in the work area.
#![tactic(auto)]

mod bayer;
mod halving;
pub mod images;
pub mod squares;

ghost use Rattle.std.specs.Prelude.{◌≡◌, ◌+◌, ◌≤◌};
ghost use Rattle.align_pyramid.specs.Prelude.{length, sample_at, Frame};
ghost use Rattle.geometry.specs.Fits.{Allowed};
ghost use Rattle.align_pyramid.specs.Layout.{offset, pyramid_length, Built};

use crate::images::{Raster, halve_down};
use crate::squares::lay_squares;
use geometry::Shape;

// The pyramid of a frame, from `at` on.
pub fn build(shape: Shape, frame: usize, samples: &[u16], work: &mut [i64], at: usize)
    requires { (Frame shape frame samples.now) × (at + pyramid_length shape ≤ length work.old) }
    ensures { Built shape (sample_at shape samples.now frame) at work.old work.new }
{
    lay_squares(shape, frame, samples, &mut *work, at);
    halve_down(
        &mut *work,
        Raster {
            from: at,
            height: shape.height / 2,
            width: shape.width / 2,
        },
    );
}

// How many words of a pyramid stand before its image number `k`.
pub fn offset(shape: Shape, k: usize) -> usize
    requires { (Allowed shape) × (k ≤ 6) }
    ensures { (result ≡ offset shape k) × (result ≤ 5592405) }
{
    let mut height = shape.height / 2;
    let mut width = shape.width / 2;
    let mut sum: usize = 0;
    for _ in 0..k {
        sum += height * width;
        height /= 2;
        width /= 2;
    }
    sum
}
