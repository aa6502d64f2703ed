// The listed tags, and the values that are asked of them.
ghost use Rattle.std.specs.Prelude.{◌≡◌, ◌≤◌};
ghost use Rattle.file_dng.specs.Tags.Prelude.{entries};
ghost use Rattle.file_dng.specs.Tags.Tags.{wanted, tag_at, asked, demand_at, has_black, listed, demanded};

use crate::tags::Demand;
use crate::tiff::Wanted;
use crate::tiff::directory::times;

// TIFF's numbers of types.
const BYTE: usize = 1;

const SHORT: usize = 3;

const LONG: usize = 4;

const DOUBLE: usize = 12;

// The rows of the table.
pub const IMAGE_WIDTH: usize = 0;

pub const IMAGE_LENGTH: usize = 1;

const BITS_PER_SAMPLE: usize = 2;

const COMPRESSION: usize = 3;

const PHOTOMETRIC_INTERPRETATION: usize = 4;

pub const STRIP_OFFSETS: usize = 5;

const SAMPLES_PER_PIXEL: usize = 6;

pub const STRIP_BYTE_COUNTS: usize = 7;

const CFA_REPEAT_PATTERN_DIM: usize = 8;

const CFA_PATTERN: usize = 9;

const WHITE_LEVEL: usize = 10;

pub const NOISE_PROFILE: usize = 11;

const BLACK_LEVEL_REPEAT_DIM: usize = 12;

pub const BLACK_LEVEL: usize = 13;

// How many rows are needed, and how many there are.
const NEEDED: usize = 12;

const LISTED: usize = 14;

// The same of the second table.
const NEEDED_VALUES: usize = 11;

const LISTED_VALUES: usize = 13;

// A tag of one of two types.
fn wanted(tag: usize, kind: usize, other: usize, count: usize) -> Wanted
    ensures { result ≡ wanted tag kind other count }
{
    Wanted {
        tag,
        kind,
        other,
        count,
    }
}

// The tag at a row of the table.
pub fn tag(row: usize) -> Wanted
    ensures { (result ≡ tag_at row) × (result.count ≤ 4) }
{
    match row {
        0 => wanted(256, SHORT, LONG, 1),
        1 => wanted(257, SHORT, LONG, 1),
        2 => wanted(258, SHORT, SHORT, 1),
        3 => wanted(259, SHORT, SHORT, 1),
        4 => wanted(262, SHORT, SHORT, 1),
        5 => wanted(273, SHORT, LONG, 1),
        6 => wanted(277, SHORT, SHORT, 1),
        7 => wanted(279, SHORT, LONG, 1),
        8 => wanted(33421, SHORT, SHORT, 2),
        9 => wanted(33422, BYTE, BYTE, 4),
        10 => wanted(50717, SHORT, LONG, 1),
        11 => wanted(51041, DOUBLE, DOUBLE, 2),
        12 => wanted(50713, SHORT, SHORT, 2),
        13 => wanted(50714, SHORT, SHORT, 4),
        _ => wanted(0, 0, 0, 0),
    }
}

// A value of the tag at a row, at an index.
fn asked(row: usize, index: usize, value: usize) -> Demand
    ensures { result ≡ asked row index value }
{
    Demand { row, index, value }
}

// The value at a row of the second table.
pub fn demand(row: usize) -> Demand
    ensures { (result ≡ demand_at row) × (result.index ≤ 4) }
{
    match row {
        0 => asked(BITS_PER_SAMPLE, 0, 16),
        1 => asked(COMPRESSION, 0, 1),
        2 => asked(PHOTOMETRIC_INTERPRETATION, 0, 32803),
        3 => asked(SAMPLES_PER_PIXEL, 0, 1),
        4 => asked(CFA_REPEAT_PATTERN_DIM, 0, 2),
        5 => asked(CFA_REPEAT_PATTERN_DIM, 1, 2),
        6 => asked(CFA_PATTERN, 0, 0),
        7 => asked(CFA_PATTERN, 1, 1),
        8 => asked(CFA_PATTERN, 2, 1),
        9 => asked(CFA_PATTERN, 3, 2),
        10 => asked(WHITE_LEVEL, 0, 4095),
        11 => asked(BLACK_LEVEL_REPEAT_DIM, 0, 2),
        12 => asked(BLACK_LEVEL_REPEAT_DIM, 1, 2),
        _ => asked(0, 0, 0),
    }
}

// Whether an entry has the tag 50714.
pub fn has_black(file: &[u8]) -> bool
    ensures { result ≡ has_black (entries file.now) }
{
    times(file, 50714) != 0
}

// How many rows of the table are listed: the last two only where the tag 50714 stands.
pub fn listed(file: &[u8]) -> usize
    ensures { result ≡ listed (entries file.now) }
{
    if has_black(file) { LISTED } else { NEEDED }
}

// How many rows of the second table are.
pub fn demanded(file: &[u8]) -> usize
    ensures { result ≡ demanded (entries file.now) }
{
    if has_black(file) {
        LISTED_VALUES
    } else {
        NEEDED_VALUES
    }
}
