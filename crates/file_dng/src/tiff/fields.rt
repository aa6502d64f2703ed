// The first entry of right type and count, and its values.
ghost use Rattle.std.specs.Prelude.{◌≡◌, ◌<◌, ◌≤◌};
ghost use Rattle.file_dng.specs.Tiff.Fields.{right, size_of, field_at, first_field, field_outside, value_at};
ghost use Rattle.file_dng.specs.Tiff.Directory.{entries};
ghost use Rattle.file_dng.specs.Tiff.Fits.{EntryFits, FieldRead};

use crate::tiff::bytes::{long_at, number_at};
use crate::tiff::directory::{directory_start, entry_at, entry_count};
use crate::tiff::{Entry, Field, Wanted};

// An entry of the tag, of right type and count.
fn right(wanted: Wanted, entry: Entry) -> bool
    ensures { result ≡ right wanted entry }
{
    (entry.tag == wanted.tag)
        & ((entry.kind == wanted.kind) | (entry.kind == wanted.other))
        & (entry.count == wanted.count)
}

// The bytes of one value of a type: BYTE, SHORT, LONG and DOUBLE.
fn size_of(kind: usize) -> usize
    ensures { (result ≡ size_of kind) × (result ≤ 8) }
{
    match kind {
        1 => 1,
        3 => 2,
        4 => 4,
        12 => 8,
        _ => 0,
    }
}

// The values of an entry: four bytes or less stand in it.
fn field_at(file: &[u8], entry: Entry) -> Field
    requires { EntryFits entry }
    ensures { FieldRead (field_at file.now entry) result }
{
    let size = size_of(entry.kind);
    if size * entry.count <= 4 {
        return Field { size, at: entry.at };
    }
    let at = long_at(file, entry.at);
    Field { size, at }
}

// The field of the first entry that is right for what is wanted.
pub fn field(file: &[u8], wanted: Wanted) -> Field
    ensures { FieldRead (first_field file.now wanted (entries file.now)) result }
{
    let start = directory_start(file) + 2;
    let count = entry_count(file);
    for i in 0..count {
        let entry = entry_at(file, start + 12 * i);
        if right(wanted, entry) {
            return field_at(file, entry);
        }
    }
    Field { size: 0, at: 0 }
}

// Whether values of a field, `count` of them, reach past the end of the file.
pub fn field_outside(file: &[u8], wanted: Wanted) -> bool
    requires { wanted.count ≤ 4 }
    ensures { result ≡ field_outside file.now (entries file.now) wanted }
{
    let found = field(file, wanted);
    file.len() < found.at + found.size * wanted.count
}

// The value at an index of a field, as a number.
pub fn value(file: &[u8], wanted: Wanted, index: usize) -> usize
    requires { index ≤ 4 }
    ensures { (result ≡ value_at file.now (entries file.now) wanted index) × (result < 4294967296) }
{
    let found = field(file, wanted);
    number_at(file, found.at + found.size * index, found.size)
}
