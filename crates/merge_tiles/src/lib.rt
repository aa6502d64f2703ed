// The tiles of a merge, those of the two column parities in pairs: T0 and Tz read from the planes, and the corrections of each pair, summed over the other
// frames, in the work area. A pair of a side has SIDE rows of LANES words, twice the side, and lies one side further on than the one before.
#![tactic(auto)]

pub mod correcting;
pub mod reading;
pub mod rows;

use recipe::Merge;

// Side 16, how far apart its tiles stand, and the words of a row of a pair; side 32 is in the crate merge_tiles32.
pub const SIDE: usize = 16;

pub const HALF_SIDE: usize = 8;

pub const PAIR_WIDTH: usize = 32;

// What a merge reads: its parameters, the words of the burst and its vectors.
#[derive(Clone, Copy)]
pub struct Burst<'a> {
    pub merge: Merge,
    pub samples: &'a [u16],
    pub vectors: &'a [i32],
}

// A pair of tiles: the parity of its rows, and its row and column among its planes' tiles. Place 2·x + p of one of its rows is column x of the tile of column
// parity p.
#[derive(Clone, Copy)]
pub struct Site {
    pub parity: usize,
    pub row: usize,
    pub column: usize,
}
