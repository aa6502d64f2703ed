// A band of the merged frame by lent vectors, for C: with the burst's own noise curve, or with that of ISO 100; and the length of its work area.
ghost use Rattle.std.specs.Prelude.{◌≡◌};
ghost use Rattle.admit_length.specs.Bands.{band_work_question};
ghost use Rattle.stacker.specs.Bands.{Banded};
ghost use Rattle.c_types.specs.Parameters.{shape_of, measured, iso_noise, tuned};

use c_types::{Burst, BurstNoise, IsoNoise, MergeTuning, at_iso, measured, shape_of, tuned};
use refusals::answer;

// Rows `top` to `top + rows` - 1 of the merged frame, with the burst's own curve.
#[unsafe(no_mangle)]
pub extern "C" fn stacker_merge_band(
    burst: Burst,
    noise: BurstNoise,
    tuning: MergeTuning,
    top: u64,
    rows: u64,
    samples: &[u16],
    vectors: &[i32],
    output: &mut [u16],
    work: &mut [i64],
) -> u64
    ensures { Banded (shape_of burst tuning.side) burst.reference (measured noise) (tuned burst tuning) top rows samples.now vectors.now output.old output.new work.old work.new result }
{
    answer(stacker::band::merge_band(
        shape_of(burst, tuning.side),
        burst.reference as usize,
        measured(noise),
        tuned(burst, tuning),
        top as usize,
        rows as usize,
        samples,
        vectors,
        &mut *output,
        &mut *work,
    ))
}

// The same with the curve for ISO 100.
#[unsafe(no_mangle)]
pub extern "C" fn stacker_merge_band_iso(
    burst: Burst,
    noise: IsoNoise,
    tuning: MergeTuning,
    top: u64,
    rows: u64,
    samples: &[u16],
    vectors: &[i32],
    output: &mut [u16],
    work: &mut [i64],
) -> u64
    ensures { Banded (shape_of burst tuning.side) burst.reference (iso_noise noise) (tuned burst tuning) top rows samples.now vectors.now output.old output.new work.old work.new result }
{
    answer(stacker::band::merge_band(
        shape_of(burst, tuning.side),
        burst.reference as usize,
        at_iso(noise),
        tuned(burst, tuning),
        top as usize,
        rows as usize,
        samples,
        vectors,
        &mut *output,
        &mut *work,
    ))
}

// The length of a band's work area, or 0 where refusal 1, 2, 22 or 23 would stand. Of the tuning only the side is read.
#[unsafe(no_mangle)]
pub extern "C" fn stacker_band_work(burst: Burst, tuning: MergeTuning) -> u64
    ensures { result ≡ band_work_question (shape_of burst tuning.side) }
{
    admit_length::bands::band_work_question(shape_of(burst, tuning.side))
}
