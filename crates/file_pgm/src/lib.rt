// A frame as a Netpbm PGM file: how long it is, the writing of it into a lent byte buffer, its size, and the reading of it back.
#![tactic(auto)]

mod header;
mod lengths;
mod reading;
mod samples;
mod writing;

pub use lengths::pgm_length;
pub use reading::{pgm_size, read_pgm};
pub use writing::write_pgm;

// What reading, or the question of the size, answers: the number of the refusal with every other field 0, or 0 with the frame's size.
// A number and not an error, since C gets it by value.
#[repr(C)]
#[derive(Clone, Copy)]
pub struct PgmRead {
    pub refusal: u64,
    pub width: u64,
    pub height: u64,
}
