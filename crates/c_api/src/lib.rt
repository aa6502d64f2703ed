// The calls for C and Rust: descriptions by value, a buffer as a pointer and its length. Each has the statement of the call behind it.
#![tactic(auto)]

pub mod align;
pub mod band;
pub mod choose;
pub mod dng_file;
pub mod file;
pub mod merge;
pub mod netpbm;
pub mod noise_range;
pub mod one_frame;
pub mod residuals;
pub mod run;
pub mod text;
