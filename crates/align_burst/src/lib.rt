// Alignment: the four levels of a frame, and the frames of a burst.
#![tactic(auto)]

pub mod burst;
pub mod frame;
