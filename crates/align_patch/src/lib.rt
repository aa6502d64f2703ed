// Squares of an image of the work area, copied into local arrays: the rule for reading outside is paid once.
#![tactic(auto)]

ghost use Rattle.std.specs.Prelude.{◌≡◌, ◌+◌, ◌*◌, ◌%◌, ◌≤◌, ◌<◌, ◌^◌, ◌+ℤ◌};
ghost use Rattle.algebra.specs.Prelude.{pos, length};
ghost use Rattle.algebra.specs.Bound.{AtMost};
ghost use Rattle.sequences.specs.Tab.{tab};
ghost use Rattle.sequences.specs.Write.{written};
ghost use Rattle.align_pyramid.specs.Words.{Held, Row, word_at, read_in};
ghost use Rattle.align_patch.specs.Copies.{Copied, RowCopy, SquareCopy, sample_of};
ghost use Rattle.align_patch.specs.Period.{place_in, next_in};

use align_pyramid::images::Raster;
use geometry::vectors::Vector;
use std::array::from_fn;

// A row or a column, `j` further.
fn shifted(z: i64, j: usize) -> i64
    requires { (AtMost (2 ^ 32) z) × (j ≤ 64) }
    ensures { result ≡ z +ℤ pos j }
{
    z + j as i64
}

// The value at a place of the work area.
fn sample(words: &[i64], k: usize) -> u16
    requires { Held words.now k }
    ensures { result ≡ word_at words.now k }
{
    words[k] as u16
}

// Eight samples from `from` on, all read before the first is stored: nothing has to be known of where they go, and both become vector instructions.
// By `copy_from_slice` they would be stored one by one, in twice the time.
fn copy_eight(words: &[i64], from: usize, out: &mut [u16], to: usize)
    requires { (Row words.now from 8) × (to + 8 ≤ length out.old) }
    ensures { out.new ≡ written out.old to (λ j. word_at words.now (from + j)) 8 }
{
    let r: [u16; 8] = from_fn(|j| sample(words, from + j));
    for j in 0..8 {
        out[to + j] = r[j];
    }
}

// `n` samples from `from` on, eight at a time.
fn copy_inside(words: &[i64], from: usize, n: usize, out: &mut [u16], to: usize)
    requires { record { row : Row words.now from n; eights : n % 8 ≡ 0; room : to + n ≤ length out.old } }
    ensures { out.new ≡ written out.old to (λ j. word_at words.now (from + j)) n }
{
    for k in 0..n / 8 {
        copy_eight(words, from + 8 * k, &mut *out, to + 8 * k);
    }
}

// The place of a column in the period of the mirrored ones.
fn first_place(column: i64, width: usize) -> usize
    requires { (0 < width) × (width ≤ 4096) }
    ensures { result ≡ place_in width column }
{
    let k = geometry::read::distance(column) % (2 * width);
    if column < 0 {
        return 2 * width - 1 - k;
    }
    k
}

// The place behind it.
fn next_place(place: usize, width: usize) -> usize
    requires { (place < 2 * width) × (width ≤ 4096) }
    ensures { result ≡ next_in width place }
{
    if place + 1 == 2 * width {
        return 0;
    }
    place + 1
}

// Eight samples of the row that starts at `start`, those from `column` on, mirrored outside. One remainder is taken for all of them.
fn copy_outside(words: &[i64], start: usize, width: usize, column: i64, out: &mut [u16], to: usize)
    requires { RowCopy words.now start width column 8 out.old to }
    ensures { out.new ≡ written out.old to (sample_of words.now start width column) 8 }
{
    let mut place = first_place(column, width);
    for j in 0..8 {
        let x = geometry::read::folded(place, width);
        out[to + j] = sample(words, start + x);
        place = next_place(place, width);
    }
}

// A column as an index, or one behind the row where it is negative.
fn index(column: i64, width: usize) -> usize
    requires { (AtMost (2 ^ 32) column) × (width ≤ 4096) }
    ensures { (result ≤ width → column ≡ pos result) × (result ≤ 2 ^ 32) }
{
    if column < 0 {
        return width + 1;
    }
    column as usize
}

// Eight samples of the row, at once where all of them lie in it.
fn copy_group(words: &[i64], start: usize, width: usize, column: i64, out: &mut [u16], to: usize)
    requires { RowCopy words.now start width column 8 out.old to }
    ensures { out.new ≡ written out.old to (sample_of words.now start width column) 8 }
{
    let x = index(column, width);
    if x + 8 <= width {
        copy_eight(words, start + x, &mut *out, to);
        return;
    }
    copy_outside(words, start, width, column, &mut *out, to);
}

// `n` samples of a row that reaches outside, by eights.
fn copy_edge(
    words: &[i64],
    start: usize,
    width: usize,
    column: i64,
    n: usize,
    out: &mut [u16],
    to: usize,
)
    requires { RowCopy words.now start width column n out.old to }
    ensures { out.new ≡ written out.old to (sample_of words.now start width column) n }
{
    for k in 0..n / 8 {
        let first = shifted(column, 8 * k);
        copy_group(words, start, width, first, &mut *out, to + 8 * k);
    }
}

// `n` samples of a row, at once where all of them lie in it.
fn copy_row(
    words: &[i64],
    start: usize,
    width: usize,
    column: i64,
    n: usize,
    out: &mut [u16],
    to: usize,
)
    requires { RowCopy words.now start width column n out.old to }
    ensures { out.new ≡ written out.old to (sample_of words.now start width column) n }
{
    let x = index(column, width);
    if x + n <= width {
        copy_inside(words, start + x, n, &mut *out, to);
        return;
    }
    copy_edge(words, start, width, column, n, &mut *out, to);
}

// The square of `n` by `n` samples of an image from a corner on.
pub fn copy_square(words: &[i64], image: Raster, corner: Vector, n: usize, out: &mut [u16])
    requires { SquareCopy words.now image corner n (length out.old) }
    ensures { Copied out.new n n (read_in words.now image) corner.down corner.right }
{
    for i in 0..n {
        let y = geometry::read::inside(shifted(corner.down, i), image.height);
        copy_row(
            words,
            image.from + y * image.width,
            image.width,
            corner.right,
            n,
            &mut *out,
            i * n,
        );
    }
}
