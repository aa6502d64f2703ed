// The search around a guess: the 81 offsets in tie order, each left where it can no longer be the least.
#![tactic(auto)]

mod trials;
pub mod window;
