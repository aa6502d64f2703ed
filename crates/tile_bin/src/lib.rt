// The Wiener step at one bin, Q and G: one part at a time in whole numbers, of differences or of the spatial filter's copy, or in double.
#![tactic(auto)]

pub mod copies;
pub mod double;
pub mod parts;
pub mod quiet;
