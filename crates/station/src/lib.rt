// The capture station's questions, for C. Each is total: it answers for every argument.
#![tactic(auto)]

ghost use Rattle.std.specs.Prelude.{◌≡◌};
ghost use Rattle.admit_length.specs.Question.{length_question};
ghost use Rattle.file_burst.specs.Reading.{file_check};
ghost use Rattle.station.specs.Station.{noise_question};

use geometry::SAMPLE_MOST;
use noise::{Curve, Noise};

// The length that refusal `number` tests, from 4 to 7; else, or where refusal 1, 2, 22 or 23 would stand, 0.
#[unsafe(no_mangle)]
pub extern "C" fn station_length(
    width: u64,
    height: u64,
    count: u64,
    side: u64,
    row_length: u64,
    number: u64,
) -> u64
    ensures { result ≡ length_question width height count side row_length number }
{
    admit_length::question::length_question(width, height, count, side, row_length, number)
}

// V of a curve, a strength, a root and a side; 0 where refusal 8, 9, 10 or 22 would stand, or the root exceeds that.
#[unsafe(no_mangle)]
pub extern "C" fn station_noise(shot: f64, read: f64, strength: u64, root: u64, side: u64) -> u64
    ensures { result ≡ noise_question shot read strength root side }
{
    let Ok(levels) = noise::levels_of(Noise::Measured(Curve { shot, read })) else {
        return 0;
    };
    if noise::strength_refusal(strength).is_err() {
        return 0;
    }
    if !admit_size::side_allowed(side as usize) {
        return 0;
    }
    // The root of a tile whose samples are all 4095 is that times its side.
    if SAMPLE_MOST as u64 * side < root {
        return 0;
    }
    noise::side_noise_number(side as usize, strength, levels.shot, levels.read, root)
}

// The number of the refusal with which reading a burst file of these bytes would end, the test of the lent samples' length apart; or 0.
#[unsafe(no_mangle)]
pub extern "C" fn station_check(file: &[u8]) -> u64
    ensures { result ≡ file_check file.now }
{
    file_burst::check_file(file)
}
