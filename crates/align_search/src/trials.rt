// An offset tried in a window: its rows are summed, and it is left where their total reaches the least so far.
ghost use Rattle.std.specs.Prelude.{◌≡◌, ◌+◌, ◌*◌, ◌<◌, ◌≤◌};
ghost use Rattle.algebra.specs.Prelude.{Bool, ℕ, cond};
ghost use Rattle.std.specs.declared.option.Option.TheVariants.{None};
ghost use Rattle.align_search.specs.Trials.Prelude.{square_row};
ghost use Rattle.align_search.specs.Trials.Trial.{InWindow, Left};

pub mod sixteen;
pub mod squared;
pub mod thirty_two;

// What trying an offset has given: its total where that is the least so far, and how many rows the rule counts.
#[derive(Clone, Copy)]
pub struct Tried {
    pub least: Option<u64>,
    pub rows: u64,
}

// A way to try offsets: by squared differences or absolute ones, over tiles of a side.
pub trait Trial {
    ghost squared: { Bool };

    ghost side: { ℕ };

    // An offset whose first sample lies in row `y` and column `x` of the window, left where its total reaches `low`.
    fn try_offset(tile: &[u16], window: &[u16], y: usize, x: usize, low: u64) -> Tried
        requires { InWindow tile.now window.now side y x }
        ensures { Left low (square_row squared tile.now window.now (y * (side + 8) + x) (side + 8) side) side result };
}

// `low` in 32 bits, where every total by absolute differences is below the greatest of them: so the sums stay in vectors of 32 bits.
fn clipped(low: u64) -> u32
    ensures { record { below : result ≤ low; fits : result ≤ 4294967295; same : result < 4294967295 → result ≡ low } }
{
    u32::try_from(low).unwrap_or(u32::MAX)
}

// An offset that is left in the two rows after the first `before`: after the first of them if the total up to it has reached the least so far.
fn leave(reached: bool, before: usize) -> Tried
    requires { before ≤ 64 }
    ensures { (result.least ≡ None) × (result.rows ≡ before + cond reached 1 2) }
{
    let more = if reached { 1 } else { 2 };
    Tried {
        least: None,
        rows: before as u64 + more,
    }
}
