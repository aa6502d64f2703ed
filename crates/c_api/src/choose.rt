// Run on the sharpest frame, for C: with the burst's own noise curve, or with that of ISO 100.
ghost use Rattle.stacker.specs.Choosing.{Chosen};
ghost use Rattle.c_types.specs.Parameters.{shape_of, of_frames, measured, iso_noise, tuned};

use c_types::{
    BurstNoise, Frames, IsoNoise, MergeTuning, at_iso, measured, of_frames, shape_of, tuned,
};
use stacker::Choice;

// Choose the reference, align, then merge, with the burst's own curve.
#[unsafe(no_mangle)]
pub extern "C" fn stacker_run_sharpest(
    frames: Frames,
    noise: BurstNoise,
    tuning: MergeTuning,
    samples: &[u16],
    vectors: &mut [i32],
    output: &mut [u16],
    work: &mut [i64],
) -> Choice
    ensures { Chosen (shape_of (of_frames frames) tuning.side) (measured noise) (tuned (of_frames frames) tuning) samples.now vectors.old vectors.new output.old output.new work.old work.new result }
{
    let burst = of_frames(frames);
    stacker::choose::run_sharpest(
        shape_of(burst, tuning.side),
        measured(noise),
        tuned(burst, tuning),
        samples,
        &mut *vectors,
        &mut *output,
        &mut *work,
    )
}

// The same with the curve for ISO 100.
#[unsafe(no_mangle)]
pub extern "C" fn stacker_run_sharpest_iso(
    frames: Frames,
    noise: IsoNoise,
    tuning: MergeTuning,
    samples: &[u16],
    vectors: &mut [i32],
    output: &mut [u16],
    work: &mut [i64],
) -> Choice
    ensures { Chosen (shape_of (of_frames frames) tuning.side) (iso_noise noise) (tuned (of_frames frames) tuning) samples.now vectors.old vectors.new output.old output.new work.old work.new result }
{
    let burst = of_frames(frames);
    stacker::choose::run_sharpest(
        shape_of(burst, tuning.side),
        at_iso(noise),
        tuned(burst, tuning),
        samples,
        &mut *vectors,
        &mut *output,
        &mut *work,
    )
}
