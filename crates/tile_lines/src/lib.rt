// The transforms of a line and the sums back from it: in whole numbers, and of two lines side by side in double.
#![tactic(auto)]

pub mod back;
pub mod double;
pub mod whole;
