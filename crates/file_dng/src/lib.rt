// One frame of a burst from an Adobe DNG file, with the noise curve and the black levels that the file gives.
#![tactic(auto)]

mod curve;
mod reading;
mod strip;
pub mod tags;
mod tiff;

pub use reading::read_dng;

// What reading a file answers: the number of the refusal with every other field 0, or 0 with the file's curve and its black levels, in the
// pattern's order.
// A number and not an error, since C gets it by value.
#[repr(C)]
#[derive(Clone, Copy)]
pub struct DngRead {
    pub refusal: u64,
    pub shot: f64,
    pub read: f64,
    pub black: [u16; 4],
}
