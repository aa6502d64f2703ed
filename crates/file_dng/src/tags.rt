// The tags of a DNG file that are listed, the tests of its structure, tags and values, 19, 20 and 21, which tag is at fault, and the size.
mod faults;
mod size;
mod tags;
mod tests;

pub use crate::tags::size::dng_size;
pub use crate::tags::tags::{BLACK_LEVEL, NOISE_PROFILE, has_black, tag};
pub use crate::tags::tests::{strip_start, tag_refusal};

// What the question of a file's size answers: the number of the refusal, with the tag at fault or 0; or 0 with the frame's size.
// A number and not an error, since C gets it by value.
#[repr(C)]
#[derive(Clone, Copy)]
pub struct DngSize {
    pub refusal: u64,
    pub tag: u64,
    pub width: u64,
    pub height: u64,
}

// A value that a file must have: of the tag at a row of the table, at an index.
#[derive(Clone, Copy)]
struct Demand {
    row: usize,
    index: usize,
    value: usize,
}
