// Tests 1 to 7, 22, 23 and 27 in their order, the lengths that 4 to 7 test, and the length questions.
#![tactic(auto)]

pub mod bands;
pub mod lengths;
pub mod one_frame;
pub mod order;
pub mod question;
