// Images inside the work area, halved one after the other.
ghost use Rattle.std.specs.Prelude.{◌≡◌, ◌+◌, ◌/◌, ◌<◌, ◌≤◌};
ghost use Rattle.align_pyramid.specs.Prelude.{length, inside, written, tap, column_sum, edged_sum};
ghost use Rattle.align_pyramid.specs.Words.{word_at, image_in, halved_in, laid, laid_row, Held, FourRows};
ghost use Rattle.align_pyramid.specs.Chain.{RoomAt, Room, Halvings};

use crate::halving::{halved_value, tap_index, weigh};

// Where an image stands in the work area, row after row, and its size.
#[derive(Clone, Copy)]
pub struct Raster {
    pub from: usize,
    pub height: usize,
    pub width: usize,
}

// A word that is not negative, as a number.
fn word(work: &[i64], k: usize) -> u32
    requires { Held work.now k }
    ensures { (result ≡ word_at work.now k) × (result ≤ 16380) }
{
    work[k] as u32
}

// The value at a column of the row number `k` of the four around `row`.
fn tap_value(work: &[i64], image: Raster, row: usize, k: usize, column: usize) -> u32
    requires { record { rows : FourRows work.now image row; tap_in : k < 4; column-in : column < image.width } }
    ensures { (result ≡ image_in work.now image (inside image.height (tap row k)) column) × (result ≤ 16380) }
{
    let y = tap_index(image.height, row, k);
    word(work, image.from + y * image.width + column)
}

// The values of a column in the four rows around `row`, weighed.
fn column_sum(work: &[i64], image: Raster, row: usize, column: usize) -> u32
    requires { (FourRows work.now image row) × (column < image.width) }
    ensures { result ≡ column_sum image.height (image_in work.now image) row column }
{
    let a = tap_value(work, image, row, 0, column);
    let b = tap_value(work, image, row, 1, column);
    let c = tap_value(work, image, row, 2, column);
    let d = tap_value(work, image, row, 3, column);
    weigh(a, b, c, d)
}

// The same of every column, and at each end of the nearest once more: number `k` is that of column `k` − 1.
fn column_sums(work: &[i64], image: Raster, row: usize, sums: &mut [u32])
    requires { (FourRows work.now image row) × (image.width + 2 ≤ length sums.old) }
    ensures { sums.new ≡ written sums.old 0 (edged_sum image.height image.width (image_in work.now image) row) (image.width + 2) }
{
    let width = image.width;
    sums[0] = column_sum(work, image, row, 0);
    for column in 0..width {
        sums[1 + column] = column_sum(work, image, row, column);
    }
    sums[1 + width] = column_sum(work, image, row, width - 1);
}

// One row of the halved image, from `to` on: columns are weighed first, so that both loops become vector instructions.
fn halve_row(work: &mut [i64], image: Raster, row: usize, to: usize, sums: &mut [u32])
    requires { record { rows : FourRows work.old image row; room : to + image.width / 2 ≤ length work.old; sums_room : image.width + 2 ≤ length sums.old } }
    ensures { work.new ≡ laid_row work.old to (image.width / 2) (halved_in work.old image) row }
{
    column_sums(&*work, image, row, &mut *sums);
    for column in 0..image.width / 2 {
        let k = 2 * column;
        let value = halved_value(sums[k], sums[k + 1], sums[k + 2], sums[k + 3]);
        work[to + column] = value as i64;
    }
}

// An image halved, from `to` on.
fn halve(work: &mut [i64], image: Raster, to: usize, sums: &mut [u32])
    requires { (RoomAt work.old image to) × (4098 ≤ length sums.old) }
    ensures { work.new ≡ laid work.old to (image.height / 2) (image.width / 2) (halved_in work.old image) }
{
    for row in 0..image.height / 2 {
        let start = to + row * (image.width / 2);
        halve_row(&mut *work, image, row, start, &mut *sums);
    }
}

// Five halvings, one of the other, in the words after an image.
pub fn halve_down(work: &mut [i64], image: Raster)
    requires { Room work.old image }
    ensures { Halvings image (image_in work.old image) work.old 5 work.new }
{
    let mut image = image;
    // 4096 columns at most, and one at each end
    let mut sums = [0u32; 4098];
    for _ in 0..5usize {
        let to = image.from + image.height * image.width;
        halve(&mut *work, image, to, &mut sums);
        image = Raster {
            from: to,
            height: image.height / 2,
            width: image.width / 2,
        };
    }
}
