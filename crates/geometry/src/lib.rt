// The shape of a burst, and where its samples, tiles and vectors stand.
#![tactic(auto)]

pub mod read;
pub mod tiles;
pub mod vectors;

ghost use Rattle.std.specs.Prelude.{◌≡◌};
ghost use Rattle.geometry.specs.Shape.{shaped};

// Samples are 0 to 4095.
pub const SAMPLE_MOST: u16 = 4095;

// A burst's frames: `count` of them, each of `height` rows of `width` samples. A row takes `pitch` words: those after its samples are spare. `side` is
// that of level 0's tiles, which are the merge's as well.
#[derive(Clone, Copy)]
pub struct Shape {
    pub width: usize,
    pub height: usize,
    pub count: usize,
    pub side: usize,
    pub pitch: usize,
}

// The shape of a burst, by W, H, N, the side of its tiles and L.
pub fn shaped(width: u64, height: u64, count: u64, side: u64, pitch: u64) -> Shape
    ensures { result ≡ shaped width height count side pitch }
{
    Shape {
        width: width as usize,
        height: height as usize,
        count: count as usize,
        side: side as usize,
        pitch: pitch as usize,
    }
}
