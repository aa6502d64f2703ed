// Pairs of tiles of side 32, beside those of side 16 in the crate merge_tiles: P takes a tile of memory, and there is no spatial filter, which is side 16's.
#![tactic(auto)]

pub mod correcting;
pub mod rows;
