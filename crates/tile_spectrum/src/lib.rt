// The transform of a tile of differences in halfcomplex form both ways, its folds and its magnitudes: definitions and laws, and what the crates of the tiles do
// to tables of numbers whatever their sides.
#![tactic(auto)]

pub mod adding;
pub mod columns;
pub mod lines;
pub mod places;
