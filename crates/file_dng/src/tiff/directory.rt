// The header and the first directory.
ghost use Rattle.std.specs.Prelude.{◌≡◌, ◌<◌};
ghost use Rattle.file_dng.specs.Tiff.Directory.{header_wrong, directory_start, entry_count, directory_outside, times_of, entries};
ghost use Rattle.file_dng.specs.Tiff.Fits.{EntryRead};

use crate::tiff::Entry;
use crate::tiff::bytes::{long_at, short_at};

// "II": low bytes first.
const LITTLE_ENDIAN: usize = 18761;

const VERSION: usize = 42;

// Not eight bytes that begin with these.
pub fn header_wrong(file: &[u8]) -> bool
    ensures { result ≡ header_wrong file.now }
{
    let order = short_at(file, 0);
    let version = short_at(file, 2);
    (file.len() < 8) | (order != LITTLE_ENDIAN) | (version != VERSION)
}

// Where the first directory stands.
pub fn directory_start(file: &[u8]) -> usize
    ensures { (result ≡ directory_start file.now) × (result < 4294967296) }
{
    long_at(file, 4)
}

// How many entries it has.
pub fn entry_count(file: &[u8]) -> usize
    ensures { (result ≡ entry_count file.now) × (result < 65536) }
{
    short_at(file, directory_start(file))
}

// Whether its count or its entries reach past the end of the file.
pub fn directory_outside(file: &[u8]) -> bool
    ensures { result ≡ directory_outside file.now }
{
    file.len() < directory_start(file) + 2 + 12 * entry_count(file)
}

// The entry whose twelve bytes stand at a place.
pub fn entry_at(file: &[u8], at: usize) -> Entry
    requires { at < 1099511627776 }
    ensures { EntryRead file.now at result }
{
    Entry {
        tag: short_at(file, at),
        kind: short_at(file, at + 2),
        count: long_at(file, at + 4),
        at: at + 8,
    }
}

// How many entries have the tag.
pub fn times(file: &[u8], tag: usize) -> usize
    ensures { result ≡ times_of tag (entries file.now) }
{
    let start = directory_start(file) + 2;
    let count = entry_count(file);
    let mut seen = 0;
    for i in 0..count {
        let found = short_at(file, start + 12 * i);
        seen += usize::from(found == tag);
    }
    seen
}
