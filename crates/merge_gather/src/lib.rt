// A row of the output: at each sample the corrections of the four tiles over it, windowed, and the sample less their sum, rounded and held to 0..4095.
#![tactic(auto)]

ghost use Rattle.std.specs.Prelude.{◌≡◌, ◌+◌, ◌-◌, ◌*◌, ◌/◌, ◌%◌, ◌≤◌, ◌<◌, ◌^◌, ◌+ℤ◌, ◌-ℤ◌, ◌*ℤ◌};
ghost use Rattle.merge_gather.specs.Prelude.{pos, nat_abs, length, get_or, shr_z, AtMost, clamp_z, TileSide, side16, side_of, taken_most};
ghost use Rattle.sequences.specs.Written.{written};
ghost use Rattle.merge_gather.specs.Gather.{window_table, Weights, corrected, windowed, word_over};
ghost use Rattle.merge_gather.specs.Work.{weight_most, part_most, sum_most, Divided, Weighed, row_span, further, Small, Inside, Roomy, word_from, row_written};
ghost use Rattle.merge_gather.specs.Ready.{BlockReady, RowReady};

use geometry::{SAMPLE_MOST, Shape};
use merge_tiles::rows::slot;

// Words are gathered sixteen at a time: a block of side 16, half a block of side 32.
const PART: usize = 16;

// Where a block of an output row, or a row from its first block on, stands, and what it is made of: its samples are those from `from` on, its words those of the
// output from `start` on. The work area has row `i` of the halves of pairs of tiles of `side` below it from `below` on, and row `i` + side/2 of those above it
// from `above` on.
#[derive(Clone, Copy)]
pub struct Span {
    pub from: usize,
    pub start: usize,
    pub above: usize,
    pub below: usize,
    pub side: usize,
    pub i: usize,
}

// The number of frames N, and 2^19/N, rounding up.
#[derive(Clone, Copy)]
struct Divisor {
    count: usize,
    inverse: u64,
}

// w(0..15) of side 16, and zeros.
const WINDOW_16: [u64; 32] = [
    39, 345, 910, 1648, 2448, 3186, 3751, 4057, 4057, 3751, 3186, 2448, 1648, 910, 345, 39, 0, 0,
    0, 0, 0, 0, 0, 0, 0, 0, 0, 0, 0, 0, 0, 0,
];

// w(0..31) of side 32.
const WINDOW_32: [u64; 32] = [
    10, 88, 242, 465, 749, 1083, 1453, 1847, 2249, 2643, 3013, 3347, 3631, 3854, 4008, 4086, 4086,
    4008, 3854, 3631, 3347, 3013, 2643, 2249, 1847, 1453, 1083, 749, 465, 242, 88, 10,
];

// Half of 2^32.
const HALF_2_32: i64 = 2147483648;

// N·(T0 + 1/2) − sum/2^32 with N = `count`, rounding down. A division by N that rounds down makes it T0 − sum/(2^32·N), to nearest, halves upward.
fn scaled(t0: u16, sum: i64, count: usize) -> i64
    requires { (count ≤ 8) × (AtMost sum_most sum) }
    ensures { result ≡ pos t0 *ℤ pos count +ℤ shr_z (pos count *ℤ pos (2 ^ 31) -ℤ sum) (2 ^ 32) }
{
    t0 as i64 * count as i64 + ((count as i64 * HALF_2_32 - sum) >> 32)
}

const SAMPLE_VALUES: i64 = 4096;

// z / count, rounding down, held to 0..4095. `inverse` is 2^19 / count, rounding up: below 4096·count a product with it and a shift are that division.
fn held(z: i64, count: usize, inverse: u64) -> u16
    requires { Divided count inverse }
    ensures { result ≡ nat_abs (clamp_z (pos 0) (pos 4095) (shr_z z count)) }
{
    if z < 0 {
        return 0;
    }
    if z < SAMPLE_VALUES * count as i64 {
        return ((z as u64 * inverse) >> 19) as u16;
    }
    SAMPLE_MOST
}

// A sample of the reference less the windowed sum of its corrections, of `count` frames.
fn corrected(t0: u16, sum: i64, count: usize, inverse: u64) -> u16
    requires { (Divided count inverse) × (AtMost sum_most sum) }
    ensures { result ≡ nat_abs (corrected side16 t0 sum (count - 1)) }
{
    held(scaled(t0, sum, count), count, inverse)
}

// The windows of a side.
fn window_of(side: usize) -> [u64; 32]
    ensures { result ≡ window_table side }
{
    if side == 32 {
        return WINDOW_32;
    }
    WINDOW_16
}

// The product of two windows.
fn weight(window: &[u64; 32], side: usize, i: usize, j: usize) -> i64
    requires { record { sided : TileSide side; table : window.now ≡ window_table side; row : i < side; column : j < side } }
    ensures { (result ≡ pos ((side_of side).window i * (side_of side).window j)) × (AtMost weight_most result) }
{
    (window[i] * window[j]) as i64
}

// w(i)·w(0..side−1), each twice: for the two planes.
fn weights(window: &[u64; 32], side: usize, i: usize) -> [i64; 64]
    requires { record { sided : TileSide side; table : window.now ≡ window_table side; row : i < side } }
    ensures { Weights side i result }
{
    let mut row = [0i64; 64];
    for j in 0..side {
        let w = weight(window, side, i, j);
        row[2 * j] = w;
        row[2 * j + 1] = w;
    }
    row
}

// A word of the work area, weighed.
fn part(work: &[i64], weights: &[i64; 64], at: usize, l: usize) -> i64
    requires { record { inside : at < length work.now; place : l < 64; word-most : nat_abs (get_or work.now at (pos 0)) ≤ taken_most; weight-most : nat_abs (get_or weights.now l (pos 0)) ≤ weight_most } }
    ensures { (result ≡ get_or weights.now l (pos 0) *ℤ get_or work.now at (pos 0)) × (AtMost part_most result) }
{
    weights[l] * work[at]
}

// What the four tiles over a sample have at it, windowed and added: row i and place l of the last pair.
fn windowed(work: &[i64], lower: &[i64; 64], upper: &[i64; 64], span: Span, l: usize) -> i64
    requires { (Weighed work.now span lower.now upper.now) × (l < span.side) }
    ensures { (result ≡ windowed (side_of span.side) span.i (l / 2) (word_over work.now span l)) × (AtMost sum_most result) }
{
    let above = span.above;
    let below = span.below;
    let side = span.side;
    let half = side * side;
    part(work, lower, below + l, l)
        + part(work, lower, below + half + l, l + side)
        + part(work, upper, above + l, l)
        + part(work, upper, above + half + l, l + side)
}

// Words of a block, sixteen of them from `place` on, two a turn. Called from two places it is compiled by itself, which leaves it the registers that it needs.
fn output_part(
    samples: &[u16],
    work: &[i64],
    lower: &[i64; 64],
    upper: &[i64; 64],
    span: Span,
    place: usize,
    by: Divisor,
    output: &mut [u16],
)
    requires { (BlockReady span by (length samples.now) (length output.old) work.now lower.now upper.now) × (place + 16 ≤ span.side) }
    ensures { output.new ≡ written output.old (span.start + place) (λ l. word_from samples.now work.now span by.count (place + l)) 16 }
{
    let from = span.from + place;
    let start = span.start + place;
    for x in 0..PART / 2 {
        let l = 2 * x;
        let sum = windowed(work, lower, upper, span, place + l);
        let t0 = samples[from + l];
        output[start + l] = corrected(t0, sum, by.count, by.inverse);
        let r = 2 * x + 1;
        let beside = windowed(work, lower, upper, span, place + r);
        let t1 = samples[from + r];
        output[start + r] = corrected(t1, beside, by.count, by.inverse);
    }
}

// A block: the words of a row over the same four pairs.
fn output_block(
    samples: &[u16],
    work: &[i64],
    lower: &[i64; 64],
    upper: &[i64; 64],
    span: Span,
    by: Divisor,
    output: &mut [u16],
)
    requires { BlockReady span by (length samples.now) (length output.old) work.now lower.now upper.now }
    ensures { output.new ≡ written output.old span.start (word_from samples.now work.now span by.count) span.side }
{
    output_part(samples, work, lower, upper, span, 0, by, &mut *output);
    if span.side == PART {
        return;
    }
    output_part(samples, work, lower, upper, span, PART, by, &mut *output);
}

// Row y of a row parity, from its first word on, for an output that begins with row `top` of the frame.
fn row_span(shape: Shape, reference: usize, parity: usize, y: usize, top: usize) -> Span
    requires { Inside shape reference parity y top }
    ensures { (result ≡ row_span shape reference parity y top) × (Roomy shape result) }
{
    let row = 2 * y + parity;
    let from = reference * (shape.pitch * shape.height) + row * shape.pitch;
    let start = (row - top) * shape.width;
    let side = shape.side;
    let half = side / 2;
    let i = y % half;
    let above = slot(side, shape.width, y / half) + side * (i + half);
    let below = slot(side, shape.width, y / half + 1) + side * i;
    Span {
        from,
        start,
        above,
        below,
        side,
        i,
    }
}

// The same from its block number `column` on.
fn further(span: Span, column: usize) -> Span
    requires { record { small : Small span; sided : TileSide span.side; column_below : column < 256 } }
    ensures { result ≡ further span column }
{
    let side = span.side;
    let words = side * column;
    let halves = 2 * side * words;
    Span {
        from: span.from + words,
        start: span.start + words,
        above: span.above + halves,
        below: span.below + halves,
        side,
        i: span.i,
    }
}

// One row of the output, which begins with row `top` of the frame: row y of a row parity, block by block.
pub fn output_row(
    shape: Shape,
    reference: usize,
    samples: &[u16],
    parity: usize,
    y: usize,
    top: usize,
    work: &[i64],
    output: &mut [u16],
)
    requires { RowReady shape reference parity y top (length samples.now) (length output.old) work.now }
    ensures { output.new ≡ row_written output.old samples.now work.now shape reference parity y top }
{
    let side = shape.side;
    let half = side / 2;
    let window = window_of(side);
    let lower = weights(&window, side, y % half);
    let upper = weights(&window, side, y % half + half);
    let count = shape.count;
    let by = Divisor {
        count,
        inverse: (524287 + count as u64) / count as u64,
    };
    let row = row_span(shape, reference, parity, y, top);
    for column in 0..shape.width / side {
        let span = further(row, column);
        output_block(samples, work, &lower, &upper, span, by, &mut *output);
    }
}
