// The search in tie order around a guess, in local arrays.
ghost use Rattle.std.specs.Prelude.{◌≡◌, ◌+◌, ◌*◌, ◌<◌, ◌≤◌, ◌-ℤ◌, take};
ghost use Rattle.align_search.specs.Prelude.{pos, length, Within};
ghost use Rattle.align_search.specs.Offsets.{offset};
ghost use Rattle.align_search.specs.Local.{window_row, Window, Kind, Searched};

use crate::trials::{Trial, sixteen, squared, thirty_two};
use geometry::vectors::Vector;

// The parts of the offsets in tie order, each plus 4.
const DOWN: [u8; 81] = [
    4, 3, 4, 4, 5, 2, 3, 3, 4, 4, 5, 5, 6, 1, 2, 2, 3, 3, 4, 4, 5, 5, 6, 6, 7, 0, 1, 1, 2, 2, 3, 3,
    4, 4, 5, 5, 6, 6, 7, 7, 8, 0, 0, 1, 1, 2, 2, 3, 3, 5, 5, 6, 6, 7, 7, 8, 8, 0, 0, 1, 1, 2, 2, 6,
    6, 7, 7, 8, 8, 0, 0, 1, 1, 7, 7, 8, 8, 0, 0, 8, 8,
];

const RIGHT: [u8; 81] = [
    4, 4, 3, 5, 4, 4, 3, 5, 2, 6, 3, 5, 4, 4, 3, 5, 2, 6, 1, 7, 2, 6, 3, 5, 4, 4, 3, 5, 2, 6, 1, 7,
    0, 8, 1, 7, 2, 6, 3, 5, 4, 3, 5, 2, 6, 1, 7, 0, 8, 0, 8, 1, 7, 2, 6, 3, 5, 2, 6, 1, 7, 0, 8, 0,
    8, 1, 7, 2, 6, 1, 7, 0, 8, 0, 8, 1, 7, 0, 8, 0, 8,
];

// An offset by its number in tie order, its residual, and how many rows of all 81 were summed.
#[derive(Clone, Copy)]
pub struct Best {
    pub offset: usize,
    pub residual: u64,
    pub rows: u64,
}

// An entry of the tables, as an index.
fn wide(x: u8) -> usize
    ensures { result ≡ x }
{
    x as usize
}

// An entry of the tables, as a part of an offset.
fn unbiased(part: u8) -> i64
    requires { part ≤ 8 }
    ensures { result ≡ pos part -ℤ pos 4 }
{
    part as i64 - 4
}

// The offset number `k`.
pub fn offset(k: usize) -> Vector
    requires { k < 81 }
    ensures { (result ≡ offset k) × (Within 4 result) }
{
    Vector {
        down: unbiased(DOWN[k]),
        right: unbiased(RIGHT[k]),
    }
}

// A tile in an array of its own, whose alignment the compiler knows.
fn copied(tile: &[u16]) -> [u16; 256]
    requires { 256 ≤ length tile.now }
    ensures { result ≡ take 256 tile.now }
{
    *tile.first_chunk().unwrap()
}

// The offsets in tie order, offset zero first, each left after the row at which its total reaches the least so far. `low` starts above every total,
// so that offset zero is summed whole.
fn search_by<T: Trial>(tile: &[u16], window: &[u16]) -> Best
    requires { (Window tile.now window.now T.side) × (Kind T.squared T.side) }
    ensures { Searched (window_row T.squared tile.now window.now T.side) T.side result }
{
    let down = DOWN;
    let right = RIGHT;
    let mut best: usize = 0;
    let mut low: u64 = u64::MAX;
    let mut rows: u64 = 0;
    for k in 0..81 {
        let y = wide(down[k]);
        let x = wide(right[k]);
        let tried = T::try_offset(tile, window, y, x, low);
        rows += tried.rows;
        if let Some(total) = tried.least {
            low = total;
            best = k;
        }
    }
    Best {
        offset: best,
        residual: low,
        rows,
    }
}

// The first of the least residuals, and the rows summed.
pub fn search(squared: bool, side: usize, tile: &[u16], window: &[u16]) -> Best
    requires { record { around : Window tile.now window.now side; kind : Kind squared side; room : 256 ≤ length tile.now } }
    ensures { Searched (window_row squared tile.now window.now side) side result }
{
    if side == 32 {
        return search_by::<thirty_two::Absolute>(tile, window);
    }
    let own = copied(tile);
    if side == 8 {
        return search_by::<squared::Eight>(&own, window);
    }
    if squared {
        return search_by::<squared::Sixteen>(&own, window);
    }
    search_by::<sixteen::Absolute>(&own, window)
}
