// The texts that the programs print.
#![tactic(auto)]

pub mod lines;
pub mod pieces;
mod text;

pub use text::Text;
