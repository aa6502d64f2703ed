// Merge by lent vectors, for C: with the burst's own noise curve, or with that of ISO 100.
ghost use Rattle.stacker.specs.Calls.{Merged};
ghost use Rattle.c_types.specs.Parameters.{shape_of, measured, iso_noise, tuned};

use c_types::{Burst, BurstNoise, IsoNoise, MergeTuning, at_iso, measured, shape_of, tuned};
use refusals::answer;

// A burst and lent vectors to the output, with the burst's own curve.
#[unsafe(no_mangle)]
pub extern "C" fn stacker_merge(
    burst: Burst,
    noise: BurstNoise,
    tuning: MergeTuning,
    samples: &[u16],
    vectors: &[i32],
    output: &mut [u16],
    work: &mut [i64],
) -> u64
    ensures { Merged (shape_of burst tuning.side) burst.reference (measured noise) (tuned burst tuning) samples.now vectors.now output.old output.new work.old work.new result }
{
    answer(stacker::merge::merge(
        shape_of(burst, tuning.side),
        burst.reference as usize,
        measured(noise),
        tuned(burst, tuning),
        samples,
        vectors,
        &mut *output,
        &mut *work,
    ))
}

// The same with the curve for ISO 100.
#[unsafe(no_mangle)]
pub extern "C" fn stacker_merge_iso(
    burst: Burst,
    noise: IsoNoise,
    tuning: MergeTuning,
    samples: &[u16],
    vectors: &[i32],
    output: &mut [u16],
    work: &mut [i64],
) -> u64
    ensures { Merged (shape_of burst tuning.side) burst.reference (iso_noise noise) (tuned burst tuning) samples.now vectors.now output.old output.new work.old work.new result }
{
    answer(stacker::merge::merge(
        shape_of(burst, tuning.side),
        burst.reference as usize,
        at_iso(noise),
        tuned(burst, tuning),
        samples,
        vectors,
        &mut *output,
        &mut *work,
    ))
}
