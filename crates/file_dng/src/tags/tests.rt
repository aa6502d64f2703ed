// The tests of the file's structure, tags and values: 19, 20 and 21.
ghost use Rattle.std.specs.Prelude.{◌≡◌, ◌<◌};
ghost use Rattle.refusals.specs.Refused.{answer_of};
ghost use Rattle.file_dng.specs.Tags.Prelude.{entries, first, some};
ghost use Rattle.file_dng.specs.Tags.Refusals.{absent, value_of, value_outside, not_once, demand_missed, strip_start, strip_length, strip_outside, outside, size_differs, otherwise, tag_tests};
ghost use Rattle.file_dng.specs.Tags.RowTests.{row_hit};

use crate::tags::tags::{
    IMAGE_LENGTH, IMAGE_WIDTH, STRIP_BYTE_COUNTS, STRIP_OFFSETS, demand, demanded, listed, tag,
};
use crate::tiff::directory::{directory_outside, header_wrong, times};
use crate::tiff::fields::{field, field_outside, value};
use geometry::Shape;
use refusals::{Refusal, refuse};

// A test of a row: of the table of tags, or of the second table (`Missed`).
#[derive(Clone, Copy)]
pub enum RowTest {
    Outside,
    NotOnce,
    Absent,
    Missed,
}

// No entry of the tag at a row has its type and count.
fn absent(file: &[u8], row: usize) -> bool
    ensures { result ≡ absent file.now (entries file.now) row }
{
    let found = field(file, tag(row));
    found.size == 0
}

// The first value of the tag at a row.
pub fn value_of(file: &[u8], row: usize) -> usize
    ensures { (result ≡ value_of file.now (entries file.now) row) × (result < 4294967296) }
{
    value(file, tag(row), 0)
}

// Where the strip begins.
pub fn strip_start(file: &[u8]) -> usize
    ensures { (result ≡ strip_start file.now (entries file.now)) × (result < 4294967296) }
{
    value_of(file, STRIP_OFFSETS)
}

// The bytes of the strip.
fn strip_length(file: &[u8]) -> usize
    ensures { (result ≡ strip_length file.now (entries file.now)) × (result < 4294967296) }
{
    value_of(file, STRIP_BYTE_COUNTS)
}

// The values of the tag at a row reach past the end of the file.
fn value_outside(file: &[u8], row: usize) -> bool
    ensures { result ≡ value_outside file.now (entries file.now) row }
{
    field_outside(file, tag(row))
}

// The tag at a row is absent or given twice.
fn not_once(file: &[u8], row: usize) -> bool
    ensures { result ≡ not_once (entries file.now) row }
{
    let wanted = tag(row);
    times(file, wanted.tag) != 1
}

// The value that a row of the second table asks for is another.
fn demand_missed(file: &[u8], row: usize) -> bool
    ensures { result ≡ demand_missed file.now (entries file.now) row }
{
    let asked = demand(row);
    value(file, tag(asked.row), asked.index) != asked.value
}

// What a test says of a row.
pub fn hit(test: RowTest, file: &[u8], row: usize) -> bool
    ensures { result ≡ row_hit test file.now (entries file.now) row }
{
    match test {
        RowTest::Outside => value_outside(file, row),
        RowTest::NotOnce => not_once(file, row),
        RowTest::Absent => absent(file, row),
        RowTest::Missed => demand_missed(file, row),
    }
}

// A test hits one of the first `rows` rows.
fn some_hit(test: RowTest, file: &[u8], rows: usize) -> bool
    ensures { result ≡ some rows (λ row. row_hit test file.now (entries file.now) row) }
{
    for row in 0..rows {
        if hit(test, file, row) {
            return true;
        }
    }
    false
}

// The strip reaches past the end of the file.
#[tactic(auto, unfolding(crate::specs::Tags::Refusals::strip_outside))]
pub fn strip_outside(file: &[u8]) -> bool
    ensures { result ≡ strip_outside file.now (entries file.now) }
{
    !absent(file, STRIP_OFFSETS)
        && !absent(file, STRIP_BYTE_COUNTS)
        && file.len() < strip_start(file) + strip_length(file)
}

// The condition of 19.
#[tactic(auto, unfolding(crate::specs::Tags::Refusals::outside))]
fn outside(file: &[u8]) -> bool
    ensures { result ≡ outside file.now (entries file.now) }
{
    header_wrong(file)
        || directory_outside(file)
        || some_hit(RowTest::Outside, file, listed(file))
        || strip_outside(file)
}

// The sizes, and the strip's length. The product is formed once both sizes are known to be LONGs.
pub fn size_differs(file: &[u8], shape: Shape) -> bool
    ensures { result ≡ size_differs file.now (entries file.now) shape }
{
    if value_of(file, IMAGE_WIDTH) != shape.width {
        return true;
    }
    if value_of(file, IMAGE_LENGTH) != shape.height {
        return true;
    }
    let length = strip_length(file);
    if length % 2 != 0 {
        return true;
    }
    length / 2 != shape.width * shape.height
}

// The condition of 21.
#[tactic(auto, unfolding(crate::specs::Tags::Refusals::otherwise))]
fn otherwise(file: &[u8], shape: Shape) -> bool
    ensures { result ≡ otherwise file.now (entries file.now) shape }
{
    some_hit(RowTest::Absent, file, listed(file))
        || size_differs(file, shape)
        || some_hit(RowTest::Missed, file, demanded(file))
}

// Tests 19, 20 and 21.
#[tactic(auto, using(refusals::specs::RefusedLaws::refuses), unfolding(refusals::specs::Tests::first, crate::specs::Tags::Refusals::tag_tests))]
pub fn tag_refusal(file: &[u8], shape: Shape) -> Result<(), Refusal>
    ensures { answer_of result ≡ first (tag_tests file.now (entries file.now) shape) }
{
    let rows = listed(file);
    refuse(Refusal::DngStructure, outside(file))?;
    refuse(Refusal::DngTag, some_hit(RowTest::NotOnce, file, rows))?;
    refuse(Refusal::DngValue, otherwise(file, shape))
}
