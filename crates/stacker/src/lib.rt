// The calls: each tests what it is lent in the order of the refusals' numbers, works, and clears the work area. None has a `requires`.
#![tactic(auto)]

pub mod align;
pub mod band;
pub mod choose;
pub mod merge;
pub mod noise_range;
pub mod one_frame;
pub mod residuals;
pub mod run;

ghost use Rattle.std.specs.Prelude.{◌≡◌};
ghost use Rattle.refusals.specs.Refused.{refusal_number};
ghost use Rattle.stacker.specs.Calls.{no_sums};

use align_burst::burst::Totals;
use refusals::Refusal;

// What align and run answer: the refusal's number, or 0, per other frame, in rising index, its sum of finest residuals, unused places 0, and how many
// tile rows were summed in all.
// A number and not an error, since C gets it by value.
#[repr(C)]
#[derive(Clone, Copy)]
pub struct Alignment {
    pub refusal: u64,
    pub residuals: [u64; 7],
    pub rows: u64,
}

// The answer where the tests refuse.
fn refused(refusal: Refusal) -> Alignment
    ensures { result ≡ record { refusal = refusal_number refusal; residuals = no_sums; rows = 0 } }
{
    Alignment {
        refusal: refusal.number(),
        residuals: [0; 7],
        rows: 0,
    }
}

// The answer where they accept.
fn accepted(totals: Totals) -> Alignment
    ensures { result ≡ record { refusal = 0; residuals = totals.residuals; rows = totals.rows } }
{
    let residuals = totals.residuals;
    Alignment {
        refusal: 0,
        residuals,
        rows: totals.rows,
    }
}

// What a run that chooses its reference answers: what run does with that reference, and its index; 0 beside a refusal.
#[repr(C)]
#[derive(Clone, Copy)]
pub struct Choice {
    pub alignment: Alignment,
    pub reference: u64,
}
