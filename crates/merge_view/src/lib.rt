// A view of one plane of one frame: it reads the caller's samples without copying them.
#![tactic(auto)]

ghost use Rattle.std.specs.Prelude.{◌≡◌, ◌+◌, ◌*◌, ◌/◌, ◌%◌, ◌≤◌, ◌<◌, ◌+ℤ◌};
ghost use Rattle.merge_view.specs.Prelude.{pos, length, get_or, tab, sample_at, inside, Sampled};
ghost use Rattle.merge_view.specs.View.{pair_of, pair_row, plane_pair, Near, RowPlace, FrameRows, RowStart};

use geometry::Shape;
use geometry::read::inside;

// The plane of one row parity, `parity`, and one column parity, `column`, `height` rows of `width` samples, of a frame whose words are `samples`: a row of the frame has
// samples.len() / (2 * height) of them, the spare ones last.
#[derive(Clone, Copy)]
pub struct PlaneView<'a> {
    pub samples: &'a [u16],
    pub width: usize,
    pub height: usize,
    pub parity: usize,
    pub column: usize,
}

impl<'a> PlaneView<'a> {
    // A row of the pair of tiles of the view's plane, which is of column parity 0, and of the plane beside it, whose samples stand one word further:
    // the samples are in the order of the frame's row. The row is y and the first column x.
    pub fn row<const LANES: usize>(self, y: i64, x: i64) -> [u16; LANES]
        requires place { RowPlace (length self.samples.now) self.width self.height self.parity self.column x }
        requires even { LANES % 2 ≡ 0 }
        requires most { LANES ≤ 64 }
        ensures { result ≡ pair_row (LANES / 2) y x self.entry.samples.now self.entry.width self.entry.height self.entry.parity }
    {
        row_at(
            y,
            x,
            self.samples,
            self.width,
            self.height,
            self.parity,
            self.column,
        )
    }
}

// Where the row that is read for y starts in the frame: its first sample of the plane.
fn row_start(y: i64, pitch: usize, height: usize, parity: usize, column: usize) -> usize
    requires { FrameRows pitch height parity column }
    ensures { RowStart y pitch height parity column result }
{
    (2 * inside(y, height) + parity) * pitch + column
}

// Row or column k of a tile that starts at z.
fn along(z: i64, k: usize) -> i64
    requires { (Near z) × (k < 32) }
    ensures { result ≡ z +ℤ pos k }
{
    z + k as i64
}

// A row of a pair that lies inside its planes, by the place of its first sample: no sample needs a test against the edges.
fn inner_pair<const LANES: usize>(samples: &[u16], first: usize) -> [u16; LANES]
    requires { first + LANES ≤ length samples.now }
    ensures { result ≡ tab LANES (λ l. get_or samples.now (first + l) 0) }
{
    let mut row = [0u16; LANES];
    row.copy_from_slice(&samples[first..first + LANES]);
    row
}

// A row of a pair that may reach over an edge, by where the row starts; its first column is x.
fn edge_pair<const LANES: usize>(
    start: usize,
    x: i64,
    samples: &[u16],
    width: usize,
) -> [u16; LANES]
    requires { record { wide : 0 < width; most : width ≤ 2048; room : start + 2 * width ≤ length samples.now; near : Near x; even : LANES % 2 ≡ 0; lanes : LANES ≤ 64 } }
    ensures { result ≡ tab LANES (λ l. get_or samples.now (start + 2 * inside width (x +ℤ pos (l / 2)) + l % 2) 0) }
{
    let mut row = [0u16; LANES];
    for j in 0..LANES / 2 {
        let at = start + 2 * inside(along(x, j), width);
        row[2 * j] = samples[at];
        row[2 * j + 1] = samples[at + 1];
    }
    row
}

// Row y of the pair whose first column is x: the samples of the plane of column parity 0 and of the plane beside it.
pub fn row_at<const LANES: usize>(
    y: i64,
    x: i64,
    samples: &[u16],
    width: usize,
    height: usize,
    parity: usize,
    column: usize,
) -> [u16; LANES]
    requires place { RowPlace (length samples.now) width height parity column x }
    requires even { LANES % 2 ≡ 0 }
    requires most { LANES ≤ 64 }
    ensures { result ≡ pair_row (LANES / 2) y x samples.now width height parity }
{
    let pitch = samples.len() / (2 * height);
    let start = row_start(y, pitch, height, parity, column);
    if 0 <= x {
        let first = x as usize;
        if first + LANES / 2 <= width {
            return inner_pair(samples, start + 2 * first);
        }
    }
    edge_pair(start, x, samples, width)
}

// tile: the pair whose first row is y and whose first column is x.
fn fill_pair<const LANES: usize, const SIDE: usize>(
    view: PlaneView<'_>,
    y: i64,
    x: i64,
    tile: &mut [[u16; LANES]; SIDE],
)
    requires { record { place : RowPlace (length view.samples.now) view.width view.height view.parity view.column x; near : Near y; lanes : LANES ≡ 2 * SIDE; most : SIDE ≤ 32 } }
    ensures { tile.new ≡ plane_pair SIDE y x view.entry.samples.now view.entry.width view.entry.height view.entry.parity }
{
    for i in 0..SIDE {
        tile[i] = view.row(along(y, i), x);
    }
}

// tile: the pair of tiles of one row parity of one frame of a burst; the view is of that frame's part of the words. A row of the pair has LANES samples, twice the side.
pub fn frame_pair<const LANES: usize, const SIDE: usize>(
    shape: Shape,
    samples: &[u16],
    frame: usize,
    parity: usize,
    y: i64,
    x: i64,
    tile: &mut [[u16; LANES]; SIDE],
)
    requires { record { sampled : Sampled shape samples.now; frame_below : frame < shape.count; parity : parity < 2; near_y : Near y; near_x : Near x; lanes : LANES ≡ 2 * SIDE; most : SIDE ≤ 32 } }
    ensures { tile.new ≡ pair_of SIDE (shape.height / 2) (shape.width / 2) (sample_at shape samples.now frame) parity y x }
{
    let words = shape.pitch * shape.height;
    let start = frame * words;
    let end = start + words;
    let view = PlaneView {
        samples: &samples[start..end],
        width: shape.width / 2,
        height: shape.height / 2,
        parity,
        column: 0,
    };
    fill_pair(view, y, x, &mut *tile);
}
