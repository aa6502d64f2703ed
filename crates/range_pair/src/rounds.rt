// P of both ends, from half of each inverse sum and from how far the ends are apart.
ghost use Rattle.std.specs.Prelude.{◌≡◌, ◌^◌, ◌≤◌};
ghost use Rattle.range_pair.specs.Prelude.{false, AtMost, LineMost, WholeRow, column_most, half_most};
ghost use Rattle.range_pair.specs.Factors.{width_most, quarter_of, greatest_of, least_of};
ghost use Rattle.range_pair.specs.Added.{RowsLent, RowsAdded, half_end, line_end, TilesLent, TilesAdded, tile_end};

use rounding::round_away_32;
use tile_lines::back::whole_halves_of;

// A quarter of z over 2^32, to nearest, halves away from zero.
fn quartered(z: i64) -> i64
    requires { AtMost (2 ^ 60) z }
    ensures { (result ≡ quarter_of z) × (AtMost (2 ^ 28) result) }
{
    round_away_32(z >> 2)
}

// P of the greatest sum.
fn greatest_of(a: i64, b: i64, width: u64) -> i64
    requires { record { first : AtMost (half_most false) a; second : AtMost (half_most false) b; width-most : width ≤ width_most } }
    ensures { (result ≡ greatest_of a b width) × (AtMost (2 ^ 28) result) }
{
    quartered(4 * (a + b) + width as i64)
}

// P of the least sum.
fn least_of(a: i64, b: i64, width: u64) -> i64
    requires { record { first : AtMost (half_most false) a; second : AtMost (half_most false) b; width-most : width ≤ width_most } }
    ensures { (result ≡ least_of a b width) × (AtMost (2 ^ 28) result) }
{
    quartered(4 * (a + b) - width as i64)
}

// P of both ends of a row is added to their sums; widths repeat after eight columns.
fn add_row(
    a: &[i64; 32],
    b: &[i64; 32],
    widths: &[u64; 16],
    greatest: &mut [i64; 32],
    least: &mut [i64; 32],
)
    requires { RowsLent (LineMost (half_most false)) a.now b.now widths.now greatest.old least.old }
    ensures { RowsAdded (half_end a.now b.now widths.now) greatest.old greatest.new least.old least.new }
{
    for l in 0..32 {
        let g = greatest_of(a[l], b[l], widths[l % 16]);
        let k = least_of(a[l], b[l], widths[l % 16]);
        greatest[l] = greatest[l] + g;
        least[l] = least[l] + k;
    }
}

// The same from rows of the sums back down the columns.
fn add_line(
    low: &[f64; 32],
    high: &[f64; 32],
    widths: &[u64; 16],
    greatest: &mut [i64; 32],
    least: &mut [i64; 32],
)
    requires { RowsLent (WholeRow (column_most false)) low.now high.now widths.now greatest.old least.old }
    ensures { RowsAdded (line_end low.now high.now widths.now) greatest.old greatest.new least.old least.new }
{
    let a = whole_halves_of(low);
    let b = whole_halves_of(high);
    add_row(&a, &b, widths, &mut *greatest, &mut *least);
}

// The same for all rows; widths repeat after eight rows.
pub fn add_lines(
    low: &[[f64; 32]; 16],
    high: &[[f64; 32]; 16],
    widths: &[[u64; 16]; 8],
    greatest: &mut [[i64; 32]; 16],
    least: &mut [[i64; 32]; 16],
)
    requires { TilesLent low.now high.now widths.now greatest.old least.old }
    ensures { TilesAdded (tile_end low.now high.now widths.now) greatest.old greatest.new least.old least.new }
{
    for y in 0..16 {
        add_line(
            &low[y],
            &high[y],
            &widths[y % 8],
            &mut greatest[y],
            &mut least[y],
        );
    }
}
