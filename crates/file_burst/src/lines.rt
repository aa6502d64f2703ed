// The lines of a burst file: one value, and a line of values, each at a position of the file.
mod lines;
mod scanning;

pub use crate::lines::lines::check_line;
pub use crate::lines::scanning::{has_lf, value_at};

// A value and the position past what ends it.
#[derive(Clone, Copy)]
pub struct Value {
    pub value: u64,
    pub next: usize,
}

// A value by what ends it.
#[derive(Clone, Copy)]
enum Scan {
    // The line's LF follows the value.
    Last(Value),
    // Spaces follow the value.
    More(Value),
}

// A line of values: the position past its LF, and whether a value is above a bound.
#[derive(Clone, Copy)]
pub struct Line {
    pub next: usize,
    pub over: bool,
}
