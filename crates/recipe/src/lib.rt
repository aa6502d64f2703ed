// The merge recipe and the exact merge: what a reader must believe of the merge, in document 01's order. Structs and definitions, no functions.
#![tactic(auto)]

use geometry::Shape;

// What tunes the merge: the strength t counts eighths of the source's tau, the four planes have their black levels in the pattern's order RGGB, and s, the
// spatial strength, is in 1/256.
#[derive(Clone, Copy)]
pub struct Tuning {
    pub strength: u64,
    pub black: [u16; 4],
    pub spatial: u64,
}

// What a merge takes beside the lent buffers; `shot` and `read` are Ls and Lr.
#[derive(Clone, Copy)]
pub struct Merge {
    pub shape: Shape,
    pub reference: usize,
    pub shot: u64,
    pub read: u64,
    pub tuning: Tuning,
}
