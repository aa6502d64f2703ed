// Residuals on local arrays: sums of absolute and squared differences of a tile and of its rows against a window.
#![tactic(auto)]

pub mod sixteen;
pub mod thirty_two;

use geometry::vectors::Vector;

// A square of samples: its side, and where its first sample lies from the image's.
#[derive(Clone, Copy)]
pub struct Tile {
    pub side: usize,
    pub origin: Vector,
}
