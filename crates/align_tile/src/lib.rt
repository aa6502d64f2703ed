// The vector of one tile: the residuals of candidates, the guess, and the search around it.
#![tactic(auto)]

ghost use Rattle.std.specs.Prelude.{◌≡◌, ◌+◌, ◌-◌, ◌*◌, ◌≤◌, ◌<◌, ◌^◌};
ghost use Rattle.align_tile.specs.Prelude.{true, false, length, ◌plus◌, Within, residual, TileSide, square_sum, Compared, Window};
ghost use Rattle.align_residual.specs.Magnitudes.{residual_most};
ghost use Rattle.align_tile.specs.Magnitudes.{guess_most};
ghost use Rattle.align_tile.specs.Stored.{pair_in, Stored, Placed, Ready, Around, OtherReady, RefineReady, CandidatesReady, Moved, refined, guessed_in, least_of_three};

use align_patch::copy_square;
use align_pyramid::images::Raster;
use align_residual::{Tile, sixteen, thirty_two};
use align_search::window::{Best, offset, search};
use geometry::vectors::Vector;

// A level's two images in the work area.
#[derive(Clone, Copy)]
pub struct Area {
    pub reference: Raster,
    pub other: Raster,
}

// A tile's vector, its residual, and how many of the tile's rows were summed to find it.
#[derive(Clone, Copy)]
pub struct Found {
    pub vector: Vector,
    pub residual: u64,
    pub rows: u64,
}

// The vectors that a tile's guess is chosen from.
#[derive(Clone, Copy)]
pub struct Candidates {
    pub own: Vector,
    pub sideways: Vector,
    pub vertically: Vector,
}

// The sum of two vectors.
fn sum(a: Vector, b: Vector) -> Vector
    requires { (Within (2 ^ 20) a) × (Within (2 ^ 20) b) }
    ensures { result ≡ a plus b }
{
    Vector {
        down: a.down + b.down,
        right: a.right + b.right,
    }
}

// Whether two vectors are known to be equal.
fn same(a: Vector, b: Vector) -> bool
    requires { (Within guess_most a) × (Within guess_most b) }
    ensures { result ≡ true → a ≡ b }
{
    if a.down != b.down {
        return false;
    }
    a.right == b.right
}

// The sum of a tile against the square of `other` from `start` on, whose rows stand `stride` apart.
fn square_sum(side: usize, samples: &[u16], other: &[u16], start: usize, stride: usize) -> u64
    requires { record { sided : TileSide side; compared : Compared samples.now other.now (side * side) (start + (side - 1) * stride + side); close : stride ≤ 64 } }
    ensures { result ≡ square_sum false samples.now other.now start stride side }
{
    if side == 32 {
        return thirty_two::absolute_sum(samples, other, start, stride) as u64;
    }
    sixteen::absolute_sum(samples, other, start, stride) as u64
}

// The residual of a candidate: always by absolute differences. `other` is for its square of the other image.
pub fn candidate_sum(
    words: &[i64],
    area: Area,
    tile: Tile,
    samples: &[u16],
    other: &mut [u16],
    v: Vector,
) -> u64
    requires { record { ready : Ready words.now area tile samples.now; sided : TileSide tile.side; room : tile.side * tile.side ≤ length other.old; near : Within guess_most v } }
    ensures { result ≡ residual false (pair_in words.now area) tile v }
{
    let image = area.other;
    let origin = tile.origin;
    copy_square(words, image, sum(origin, v), tile.side, &mut *other);
    square_sum(tile.side, samples, &*other, 0, tile.side)
}

// The candidate of the least residual, the earlier on a tie.
fn guess(candidates: Candidates, first: u64, second: u64, third: u64) -> Vector
    ensures { result ≡ least_of_three candidates.own candidates.sideways candidates.vertically first second third }
{
    if second < first {
        if third < second {
            return candidates.vertically;
        }
        return candidates.sideways;
    }
    if third < first {
        return candidates.vertically;
    }
    candidates.own
}

// The window around a guess, 4 samples further than the tile each way.
fn copy_window(words: &[i64], area: Area, tile: Tile, guess: Vector, window: &mut [u16])
    requires { record { stored : Stored words.now area; placed : Placed tile; near : Within guess_most guess; room : (tile.side + 8) * (tile.side + 8) ≤ length window.old } }
    ensures { Around words.now area tile guess window.new }
{
    let image = area.other;
    let origin = tile.origin;
    let corner = sum(
        sum(origin, guess),
        Vector {
            down: -4,
            right: -4,
        },
    );
    copy_square(words, image, corner, tile.side + 8, &mut *window);
}

// The residual of the guess of such a window, in its middle.
fn middle_sum(side: usize, samples: &[u16], window: &[u16]) -> u64
    requires { (TileSide side) × (Window samples.now window.now side) }
    ensures { result ≡ square_sum false samples.now window.now (4 * (side + 8) + 4) (side + 8) side }
{
    square_sum(side, samples, window, 4 * (side + 8) + 4, side + 8)
}

// The residual of another candidate than the own one, whose residual is `first`: one equal to it is not summed again.
fn other_sum(
    words: &[i64],
    area: Area,
    tile: Tile,
    samples: &[u16],
    other: &mut [u16],
    v: Vector,
    own: Vector,
    first: u64,
) -> u64
    requires { OtherReady words.now area tile samples.now other.old v own first }
    ensures { result ≡ residual false (pair_in words.now area) tile v }
{
    if same(v, own) {
        return first;
    }
    candidate_sum(words, area, tile, samples, &mut *other, v)
}

// What the search around a guess has found there, and the rows summed, those before the search included.
fn moved(guess: Vector, best: Best, before: u64) -> Found
    requires { record { near : Within guess_most guess; tried : best.offset < 81; few : best.rows ≤ 2592; few_before : before ≤ 96 } }
    ensures { Moved guess best before result }
{
    let vector = sum(guess, offset(best.offset));
    Found {
        vector,
        residual: best.residual,
        rows: before + best.rows,
    }
}

// The search around a guess, after so many rows of candidates. `window` is for the other image's samples around it.
pub fn refine(
    words: &[i64],
    area: Area,
    tile: Tile,
    samples: &[u16],
    window: &mut [u16],
    squared: bool,
    guess: Vector,
    before: u64,
) -> Found
    requires { RefineReady words.now area tile samples.now window.old squared guess before }
    ensures { (result ≡ refined squared words.now area tile guess before) × (result.residual ≤ residual_most) }
{
    copy_window(words, area, tile, guess, &mut *window);
    moved(guess, search(squared, tile.side, samples, &*window), before)
}

// The search around the best of three candidates. The window around the own one is copied first: its middle gives that one's residual,
// and it is searched itself where that one is the best. `window` and `other` are for samples of the other image.
pub fn refine_candidates(
    words: &[i64],
    area: Area,
    tile: Tile,
    samples: &[u16],
    window: &mut [u16],
    other: &mut [u16],
    squared: bool,
    candidates: Candidates,
) -> Found
    requires { CandidatesReady words.now area tile samples.now window.old other.old squared candidates.own candidates.sideways candidates.vertically }
    ensures { (result ≡ refined squared words.now area tile (guessed_in words.now area tile candidates.own candidates.sideways candidates.vertically) (3 * tile.side)) × (result.residual ≤ residual_most) }
{
    let side = tile.side;
    let own = candidates.own;
    copy_window(words, area, tile, own, &mut *window);
    let first = middle_sum(side, samples, &*window);
    let second = other_sum(
        words,
        area,
        tile,
        samples,
        &mut *other,
        candidates.sideways,
        own,
        first,
    );
    let third = other_sum(
        words,
        area,
        tile,
        samples,
        &mut *other,
        candidates.vertically,
        own,
        first,
    );
    let best = guess(candidates, first, second, third);
    let rows = 3 * side as u64;
    if same(best, own) {
        return moved(own, search(squared, side, samples, &*window), rows);
    }
    refine(
        words,
        area,
        tile,
        samples,
        &mut *window,
        squared,
        best,
        rows,
    )
}
