// The low and the high frame by lent vectors, for C: between two noise curves, or between two ISO numbers with their curves.
ghost use Rattle.stacker.specs.Ranged.{Ranged};
ghost use Rattle.c_types.specs.Parameters.{shape_of, measured, iso_noise, tuned};

use c_types::{Burst, BurstNoise, IsoNoise, MergeTuning, at_iso, measured, shape_of, tuned};
use refusals::answer;

// A burst and lent vectors to both frames, between two curves of the burst's own.
#[unsafe(no_mangle)]
pub extern "C" fn stacker_range(
    burst: Burst,
    lower: BurstNoise,
    upper: BurstNoise,
    tuning: MergeTuning,
    samples: &[u16],
    vectors: &[i32],
    low: &mut [u16],
    high: &mut [u16],
    work: &mut [i64],
) -> u64
    ensures { Ranged (shape_of burst tuning.side) burst.reference (measured lower) (measured upper) (tuned burst tuning) samples.now vectors.now low.old low.new high.old high.new work.old work.new result }
{
    answer(stacker::noise_range::range(
        shape_of(burst, tuning.side),
        burst.reference as usize,
        measured(lower),
        measured(upper),
        tuned(burst, tuning),
        samples,
        vectors,
        &mut *low,
        &mut *high,
        &mut *work,
    ))
}

// The same with the curves for ISO 100.
#[unsafe(no_mangle)]
pub extern "C" fn stacker_range_iso(
    burst: Burst,
    lower: IsoNoise,
    upper: IsoNoise,
    tuning: MergeTuning,
    samples: &[u16],
    vectors: &[i32],
    low: &mut [u16],
    high: &mut [u16],
    work: &mut [i64],
) -> u64
    ensures { Ranged (shape_of burst tuning.side) burst.reference (iso_noise lower) (iso_noise upper) (tuned burst tuning) samples.now vectors.now low.old low.new high.old high.new work.old work.new result }
{
    answer(stacker::noise_range::range(
        shape_of(burst, tuning.side),
        burst.reference as usize,
        at_iso(lower),
        at_iso(upper),
        tuned(burst, tuning),
        samples,
        vectors,
        &mut *low,
        &mut *high,
        &mut *work,
    ))
}
