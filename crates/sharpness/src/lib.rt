// The sharpest of a burst's first frames: the reference that is chosen for the caller.
#![tactic(auto)]

ghost use Rattle.std.specs.Prelude.{◌≡◌, ◌+◌, ◌-◌, ◌*◌, ◌/◌, ◌≤◌, ◌<◌, min};
ghost use Rattle.sharpness.specs.Prelude.{Placed, Sampled, SamplesFit, sample_at, sum_n};
ghost use Rattle.sequences.specs.Tab.{tab};
ghost use Rattle.sharpness.specs.Sharpness.{green, step, sharpness, sharpest};
ghost use Rattle.sharpness.specs.Words.{RowsIn, word_steps, place_steps, lane_of, green_total, last_step, both_steps, word_most, row_most};

use geometry::Shape;
use geometry::read::sample_at;
use std::array::from_fn;

// The column parity of the green plane; its row parity is 0.
const GREEN: usize = 1;

// A sample of a frame.
fn sample(shape: Shape, samples: &[u16], frame: usize, row: usize, column: usize) -> u16
    requires { record { sampled : Sampled shape samples.now; fit : SamplesFit shape samples.now; placed : Placed shape frame row column } }
    ensures { (result ≡ sample_at shape samples.now frame row column) × (result ≤ 4095) }
{
    sample_at(shape, samples, frame, row, column)
}

// The absolute step from a sample to another.
fn step(a: u16, b: u16) -> u16
    ensures { result ≡ step a b }
{
    if a < b { b - a } else { a - b }
}

// A row of the plane of a frame of a burst, and the row so many rows of the plane further down.
#[derive(Clone, Copy)]
struct RowPair<'a> {
    shape: Shape,
    samples: &'a [u16],
    frame: usize,
    row: usize,
    down: usize,
    ghost inside: { RowsIn shape samples.now frame row down },
}

impl RowPair<'_> {
    // Both steps from a word of the row: to the right in its plane, and down.
    fn word_steps(self, column: usize) -> u16
        requires { column + 2 < self.shape.width }
        ensures { (result ≡ word_steps (sample_at self.entry.shape self.entry.samples.now self.entry.frame) self.entry.row self.entry.down column) × (result ≤ word_most) }
    {
        let below_row = 2 * (self.row + self.down);
        let here = sample(self.shape, self.samples, self.frame, 2 * self.row, column);
        let right = sample(
            self.shape,
            self.samples,
            self.frame,
            2 * self.row,
            column + 2,
        );
        let below = sample(self.shape, self.samples, self.frame, below_row, column);
        step(here, right) + step(here, below)
    }

    // The steps of 32 words from a column on, each word's with those of the word 16 further: words that stand one behind the other become vector
    // instructions, which every other word does not.
    fn lanes(self, column: usize) -> [u16; 16]
        requires { column + 34 ≤ self.shape.width }
        ensures { result ≡ tab 16 (lane_of (word_steps (sample_at self.entry.shape self.entry.samples.now self.entry.frame) self.entry.row self.entry.down) column) }
    {
        from_fn(|j| self.word_steps(column + j) + self.word_steps(column + 16 + j))
    }

    // Both steps from each of the row's places, but for the last sixteen.
    fn block_steps(self) -> u32
        ensures { (result ≡ sum_n ((self.entry.shape.width / 32 - 1) * 16) (place_steps (sample_at self.entry.shape self.entry.samples.now self.entry.frame) self.entry.row self.entry.down)) × (result ≤ (self.entry.shape.width / 32 - 1) * 524280) }
    {
        let mut sum: u32 = 0;
        for block in 0..self.shape.width / 32 - 1 {
            sum += green_total(self.lanes(32 * block));
        }
        sum
    }

    // The step from the last place of the row, which has none to its right.
    fn last_step(self) -> u16
        ensures { result ≡ last_step (sample_at self.entry.shape self.entry.samples.now self.entry.frame) (self.entry.shape.width / 2) self.entry.row self.entry.down }
    {
        let column = 2 * (self.shape.width / 2 - 1) + GREEN;
        let below_row = 2 * (self.row + self.down);
        let here = sample(self.shape, self.samples, self.frame, 2 * self.row, column);
        let below = sample(self.shape, self.samples, self.frame, below_row, column);
        step(here, below)
    }

    // The steps of the row to the right, and down.
    fn steps(self) -> u32
        ensures { (result ≡ both_steps (self.entry.shape.width / 2) self.entry.down (green self.entry.shape self.entry.samples.now self.entry.frame) self.entry.row) × (result ≤ row_most) }
    {
        let mut sum = self.block_steps();
        for place in (self.shape.width / 32 - 1) * 16..self.shape.width / 2 - 1 {
            sum += self.word_steps(2 * place + GREEN) as u32;
        }
        sum + self.last_step() as u32
    }
}

// A lane in 32 bits.
fn wide(x: u16) -> u32
    ensures { (result ≡ x) × (result ≤ 65535) }
{
    x as u32
}

// The lanes of the plane's words.
fn green_total(lanes: [u16; 16]) -> u32
    ensures { (result ≡ green_total lanes) × (result ≤ 524280) }
{
    let mut sum: u32 = 0;
    for j in 0..8 {
        sum += wide(lanes[2 * j + GREEN]);
    }
    sum
}

// The sharpness of a frame. The last row has none below: a step down by no row is 0.
fn sharpness(shape: Shape, samples: &[u16], frame: usize) -> u64
    requires { record { sampled : Sampled shape samples.now; fit : SamplesFit shape samples.now; frame_in : frame < shape.count } }
    ensures { result ≡ sharpness shape samples.now frame }
{
    let last = shape.height / 2 - 1;
    let mut sum: u64 = 0;
    for row in 0..last {
        let rows = RowPair {
            shape,
            samples,
            frame,
            row,
            down: 1,
        };
        sum += rows.steps() as u64;
    }
    let rows = RowPair {
        shape,
        samples,
        frame,
        row: last,
        down: 0,
    };
    sum + rows.steps() as u64
}

// So many of the first frames are compared, where there are so many.
const FIRST: usize = 3;

// The index of the sharpest of the first frames. A lone frame is not looked at.
pub fn sharpest(shape: Shape, samples: &[u16]) -> usize
    requires { (Sampled shape samples.now) × (SamplesFit shape samples.now) }
    ensures { (result ≡ sharpest shape samples.now) × (result < shape.count) }
{
    if shape.count < 2 {
        return 0;
    }
    let mut best = 0;
    let mut most = sharpness(shape, samples, 0);
    for frame in 1..shape.count.min(FIRST) {
        let other = sharpness(shape, samples, frame);
        if most < other {
            most = other;
            best = frame;
        }
    }
    best
}
