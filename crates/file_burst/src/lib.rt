// The burst file: its rows, the check of a whole file, and the reading of it into the caller's samples.
#![tactic(auto)]

mod file;
pub mod head;
mod lines;
mod rows;

pub use file::{check, check_file, file_size, read_file};

// What reading a file, or its first two lines, answers: the number of the refusal with every other field 0, or 0 with the file's seven values.
// The levels are Ls and Lr, 1024 times a curve's shot and read.
// A number and not an error, since C gets it by value.
#[repr(C)]
#[derive(Clone, Copy)]
pub struct FileAnswer {
    pub refusal: u64,
    pub width: u64,
    pub height: u64,
    pub count: u64,
    pub reference: u64,
    pub shot_level: u64,
    pub read_level: u64,
    pub strength: u64,
}
