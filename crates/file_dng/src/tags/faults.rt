// Which tag is at fault beside 19, 20 and 21.
ghost use Rattle.std.specs.Prelude.{◌≡◌};
ghost use Rattle.refusals.specs.Refused.{refusal_number};
ghost use Rattle.file_dng.specs.Tags.Prelude.{entries, refuse};
ghost use Rattle.file_dng.specs.Tags.Tags.{tag_at};
ghost use Rattle.file_dng.specs.Tags.RowTests.{row_hit, row_tag};
ghost use Rattle.file_dng.specs.Tags.Faults.{first_of, structure_fault, count_fault, value_fault, fault_tag};

use crate::tags::tags::{STRIP_BYTE_COUNTS, STRIP_OFFSETS, demand, demanded, listed, tag};
use crate::tags::tests::{RowTest, hit, size_differs, strip_outside};
use crate::tiff::directory::{directory_outside, header_wrong};
use geometry::Shape;
use refusals::Refusal;
use refusals::numbers::{first, refuse};

// The number of the tag at a row of the table.
fn tag_at(row: usize) -> u64
    ensures { result ≡ (tag_at row).tag }
{
    let wanted = tag(row);
    wanted.tag as u64
}

// The number of the tag that a test speaks of at a row.
fn row_tag(test: RowTest, row: usize) -> u64
    ensures { result ≡ row_tag test row }
{
    match test {
        RowTest::Outside => tag_at(row),
        RowTest::NotOnce => tag_at(row),
        RowTest::Absent => tag_at(row),
        RowTest::Missed => {
            let asked = demand(row);
            tag_at(asked.row)
        }
    }
}

// The tag of the first of `rows` rows that a test hits, or 0.
fn first_hit(test: RowTest, file: &[u8], rows: usize) -> u64
    ensures { result ≡ first_of rows (λ row. refuse (row_tag test row) (row_hit test file.now (entries file.now) row)) }
{
    for row in 0..rows {
        let found = refuse(row_tag(test, row), hit(test, file, row));
        if found != 0 {
            return found;
        }
    }
    0
}

// Beside 19: a header or a directory is no tag's fault.
fn structure_fault(file: &[u8]) -> u64
    ensures { result ≡ structure_fault file.now (entries file.now) }
{
    if header_wrong(file) {
        return 0;
    }
    if directory_outside(file) {
        return 0;
    }
    let value = first_hit(RowTest::Outside, file, listed(file));
    let strip = refuse(tag_at(STRIP_OFFSETS), strip_outside(file));
    first(&[value, strip])
}

// Beside 21, for a burst of the file's own size: of the sizes only the strip's can differ.
fn value_fault(file: &[u8], shape: Shape) -> u64
    ensures { result ≡ value_fault file.now (entries file.now) shape }
{
    let absent = first_hit(RowTest::Absent, file, listed(file));
    let strip = refuse(tag_at(STRIP_BYTE_COUNTS), size_differs(file, shape));
    let missed = first_hit(RowTest::Missed, file, demanded(file));
    first(&[absent, strip, missed])
}

// The tag at fault beside a refusal, or 0.
pub fn fault_tag(refusal: Refusal, file: &[u8], shape: Shape) -> u64
    ensures { result ≡ fault_tag (refusal_number refusal) file.now (entries file.now) shape }
{
    match refusal {
        Refusal::DngStructure => structure_fault(file),
        Refusal::DngTag => first_hit(RowTest::NotOnce, file, listed(file)),
        Refusal::DngValue => value_fault(file, shape),
        _ => 0,
    }
}
