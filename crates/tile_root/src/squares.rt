// The squares of a pair of tiles added up for each of its planes, and the whole root by bisection. Place 2·j + p of a row of the pair is column j of plane p.
ghost use Rattle.std.specs.Prelude.{◌≡◌, ◌+◌, ◌*◌, ◌<◌, ◌≤◌};
ghost use Rattle.tile_root.specs.Prelude.{get_or, sum_n, tab, whole_root, intensity, squared};
ghost use Rattle.tile_root.specs.Range.{IsPair, RowFits, SamplesFit, LanesFit};
ghost use Rattle.tile_root.specs.Lanes.{lane_black, lanes};

// The greatest number whose square is at most n.
pub fn whole_root(n: u64) -> u64
    requires { n < 68719476736 }
    ensures { result ≡ whole_root n }
{
    let mut low: u64 = 0;
    let mut high: u64 = 262144;
    while 1 < high - low {
        let middle = (low + high) / 2;
        if middle * middle <= n {
            low = middle;
        } else {
            high = middle;
        }
    }
    low
}

// What r squares of a sample: by how much it exceeds the black level, or 0.
fn intensity(black: u16, sample: u16) -> u16
    ensures { result ≡ intensity black sample }
{
    sample.saturating_sub(black)
}

// Its square. 32² of them fit 64 bits, and 32 fit 32.
pub fn squared(black: u16, sample: u16) -> u32
    requires { sample ≤ 4095 }
    ensures { (result ≡ squared black sample) × (result ≤ 16769025) }
{
    let x = u32::from(intensity(black, sample));
    x * x
}

// The black level at place l of a row.
pub fn lane_black(first: u16, second: u16, l: usize) -> u16
    ensures { result ≡ lane_black first second l }
{
    if l % 2 == 0 { first } else { second }
}

// The black levels along a row.
pub fn lane_blacks<const LANES: usize>(first: u16, second: u16) -> [u16; LANES]
    ensures { result ≡ tab LANES (lane_black first second) }
{
    std::array::from_fn(
        |l: usize| -> u16
            ensures { result ≡ lane_black first second l }
        { lane_black(first, second, l) },
    )
}

// The square at place l of a row.
fn square_at<const LANES: usize>(black: &[u16; LANES], row: &[u16; LANES], l: usize) -> u32
    requires { (l < LANES) × (get_or row.now l 0 ≤ 4095) }
    ensures { (result ≡ squared (get_or black.now l 0) (get_or row.now l 0)) × (result ≤ 16769025) }
{
    squared(black[l], row[l])
}

// The squares of a row, each added to the sum at its place.
fn add_squares<const LANES: usize>(black: &[u16; LANES], row: &[u16; LANES], sum: &mut [u32; LANES])
    requires { (RowFits row.now) × (LanesFit LANES 31 sum.old) }
    ensures { sum.new ≡ tab LANES (λ l. get_or sum.old l 0 + squared (get_or black.now l 0) (get_or row.now l 0)) }
{
    // by place, since three arrays go together
    for l in 0..LANES {
        sum[l] += square_at(black, row, l);
    }
}

// The squares of a pair, added up at each place of its rows.
pub fn lane_squares<const LANES: usize, const SIDE: usize>(
    black: &[u16; LANES],
    tile: &[[u16; LANES]; SIDE],
) -> [u32; LANES]
    requires { (IsPair LANES SIDE) × (SamplesFit tile.now) }
    ensures { (result ≡ lanes LANES SIDE black.now tile.now) × (LanesFit LANES SIDE result) }
{
    let mut sum = [0u32; LANES];
    for row in tile {
        add_squares(black, row, &mut sum);
    }
    sum
}

// The squares of plane p, from those at each place.
pub fn plane_squares<const LANES: usize, const SIDE: usize>(sum: &[u32; LANES], p: usize) -> u64
    requires { (p < 2) × (IsPair LANES SIDE) × (LanesFit LANES SIDE sum.now) }
    ensures { (result ≡ sum_n SIDE (λ j. get_or sum.now (2 * j + p) 0)) × (result ≤ SIDE * (SIDE * 16769025)) }
{
    let mut s: u64 = 0;
    // by column, since a plane has every second place
    for j in 0..SIDE {
        s += u64::from(sum[2 * j + p]);
    }
    s
}
