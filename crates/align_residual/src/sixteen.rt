// Sums of differences over tiles of side 16, in shapes that become vector instructions: samples are at most 16380, so that four of their
// distances fit 16 bits, 16 of their squares 32 bits.
ghost use Rattle.std.specs.Prelude.{◌≡◌, ◌+◌, ◌*◌, ◌<◌, ◌≤◌};
ghost use Rattle.algebra.specs.Prelude.{false, get_or};
ghost use Rattle.algebra.specs.Sums.{sum_n};
ghost use Rattle.sequences.specs.Tab.{tab};
ghost use Rattle.align_pyramid.specs.Halving.Magnitudes.{value_most};
ghost use Rattle.align_residual.specs.Magnitudes.{square_most, four_most, pair_most, total_most};
ghost use Rattle.align_residual.specs.Residual.{gap};
ghost use Rattle.align_residual.specs.Local.{row_sum, square_sum, column_sum, beside_sum, Compared, SquaredRows};

use std::array::from_fn;

// Two samples, the tile's at `a` and the window's at `b`.
fn apart(tile: &[u16], window: &[u16], a: usize, b: usize) -> u16
    requires { Compared tile.now window.now (a + 1) (b + 1) }
    ensures { (result ≡ gap (get_or tile.now a 0) (get_or window.now b 0)) × (result ≤ value_most) }
{
    let x = tile[a];
    let y = window[b];
    if x < y { y - x } else { x - y }
}

// Four samples of the tile, one under the other from `a` on.
fn column(tile: &[u16], window: &[u16], a: usize, b: usize, stride: usize) -> u16
    requires { (Compared tile.now window.now (a + 49) (b + 3 * stride + 1)) × (stride ≤ 64) }
    ensures { (result ≡ column_sum gap tile.now window.now a b stride) × (result ≤ four_most) }
{
    let first = apart(tile, window, a, b);
    let second = apart(tile, window, a + 16, b + stride);
    let third = apart(tile, window, a + 32, b + 2 * stride);
    let fourth = apart(tile, window, a + 48, b + 3 * stride);
    first + second + third + fourth
}

// Sixteen of them side by side.
fn columns(tile: &[u16], window: &[u16], a: usize, b: usize, stride: usize) -> [u16; 16]
    requires { (Compared tile.now window.now (a + 64) (b + 3 * stride + 16)) × (stride ≤ 64) }
    ensures { result ≡ tab 16 (λ j. column_sum gap tile.now window.now (a + j) (b + j) stride) }
{
    from_fn(|j| column(tile, window, a + j, b + j, stride))
}

// A sample in 32 bits.
pub fn wide(x: u16) -> u32
    ensures { (result ≡ x) × (result ≤ 65535) }
{
    x as u32
}

// The sum of four times sixteen.
fn total(first: [u16; 16], second: [u16; 16], third: [u16; 16], fourth: [u16; 16]) -> u32
    ensures { (result ≡ sum_n 16 (λ j. get_or first j 0 + get_or second j 0 + get_or third j 0 + get_or fourth j 0)) × (result ≤ total_most) }
{
    let mut sum: u32 = 0;
    for j in 0..16 {
        sum += wide(first[j]) + wide(second[j]) + wide(third[j]) + wide(fourth[j]);
    }
    sum
}

// Absolute differences: a whole tile against the window from `start` on, whose rows stand `stride` apart.
pub fn absolute_sum(tile: &[u16], window: &[u16], start: usize, stride: usize) -> u32
    requires { (Compared tile.now window.now 256 (start + 15 * stride + 16)) × (stride ≤ 64) }
    ensures { (result ≡ square_sum false tile.now window.now start stride 16) × (result ≤ total_most) }
{
    let first = columns(tile, window, 0, start, stride);
    let second = columns(tile, window, 64, start + 4 * stride, stride);
    let third = columns(tile, window, 128, start + 8 * stride, stride);
    let fourth = columns(tile, window, 192, start + 12 * stride, stride);
    total(first, second, third, fourth)
}

// Two samples of a row, eight apart.
pub fn beside(tile: &[u16], window: &[u16], a: usize, b: usize) -> u16
    requires { Compared tile.now window.now (a + 9) (b + 9) }
    ensures { (result ≡ beside_sum tile.now window.now a b) × (result ≤ 2 * value_most) }
{
    let first = apart(tile, window, a, b);
    let second = apart(tile, window, a + 8, b + 8);
    first + second
}

// The same, and the two that stand 16 further in the tile and `STEP` further in the window.
fn four<const STEP: usize>(tile: &[u16], window: &[u16], a: usize, b: usize) -> u16
    requires { Compared tile.now window.now (a + 25) (b + STEP + 9) }
    ensures { (result ≡ beside_sum tile.now window.now a b + beside_sum tile.now window.now (a + 16) (b + STEP)) × (result ≤ four_most) }
{
    let upper = beside(tile, window, a, b);
    let lower = beside(tile, window, a + 16, b + STEP);
    upper + lower
}

// A row of the tile from `a` on against the window's from `b` on.
pub fn absolute_row(tile: &[u16], window: &[u16], a: usize, b: usize) -> u32
    requires { Compared tile.now window.now (a + 16) (b + 16) }
    ensures { (result ≡ row_sum false tile.now window.now a b 16) × (result ≤ pair_most) }
{
    let mut sum: u32 = 0;
    for j in 0..8 {
        sum += wide(beside(tile, window, a + j, b + j));
    }
    sum
}

// Sixteen samples from there on, and the 16 behind them in the tile against those `STEP` further in the window: two rows of side 16, where the
// window's stand 24 apart, and with 16 one row of side 32.
pub fn absolute_pair<const STEP: usize>(tile: &[u16], window: &[u16], a: usize, b: usize) -> u32
    requires { Compared tile.now window.now (a + 32) (b + STEP + 16) }
    ensures { (result ≡ row_sum false tile.now window.now a b 16 + row_sum false tile.now window.now (a + 16) (b + STEP) 16) × (result ≤ pair_most) }
{
    let mut sum: u32 = 0;
    for j in 0..8 {
        sum += wide(four::<STEP>(tile, window, a + j, b + j));
    }
    sum
}

// The square of two samples' difference.
pub fn square(x: u16, y: u16) -> u32
    requires { (x ≤ value_most) × (y ≤ value_most) }
    ensures { (result ≡ gap x y * gap x y) × (result ≤ square_most) }
{
    let d = (x as i16 - y as i16) as i32;
    (d * d) as u32
}

// The sums of two rows, one under the other.
#[derive(Clone, Copy)]
pub struct Two {
    pub upper: u32,
    pub lower: u32,
}

// Squared differences of a row of the tile from `a` on and the window's from `b` on, and of the row under it, in a window 8 wider than the tile. One
// call for both, so that it is compiled into the loop over the rows.
pub fn squared_rows<const SIDE: usize>(tile: &[u16], window: &[u16], a: usize, b: usize) -> Two
    requires { (Compared tile.now window.now (a + 2 * SIDE) (b + 2 * SIDE + 8)) × (SIDE ≤ 16) }
    ensures { SquaredRows SIDE tile.now window.now a b result.upper result.lower }
{
    let mut upper: u32 = 0;
    let mut lower: u32 = 0;
    for j in 0..SIDE {
        upper += square(tile[a + j], window[b + j]);
        lower += square(tile[a + SIDE + j], window[b + SIDE + 8 + j]);
    }
    Two { upper, lower }
}
