// What the programs print, as functions from the file's bytes to the printed bytes.
#![tactic(auto)]

mod motion;
mod opening;
pub mod sizes;
mod stack;
mod text;

pub use text::{motion_text, stack_text};
