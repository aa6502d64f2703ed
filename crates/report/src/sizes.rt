// The sizes that the programs take, and the lengths of what they lend.

// The greatest length of a file, and an array that can tell a longer one.
pub const FILE_MOST: usize = 65536;

pub const FILE_ROOM: usize = 65537;

// Width and height of a frame, and its samples.
pub const FRAME_SIDE: usize = 64;

pub const FRAME: usize = 4096;

// Eight frames of samples.
pub const SAMPLE_ROOM: usize = 32768;

// The vector parts of one other frame, and of seven.
pub const PARTS: usize = 50;

pub const VECTOR_ROOM: usize = 350;

pub const WORK_ROOM: usize = 8192;

// Room for any text of the programs.
pub const TEXT_ROOM: usize = 32768;
