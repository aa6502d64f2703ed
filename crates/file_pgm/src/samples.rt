// The samples of a PGM file: the test of them, and the two bytes of each, put and read. The loops have no branches, so that they become vector instructions.
ghost use Rattle.std.specs.Prelude.{◌≡◌, ◌+◌, ◌*◌, ◌%◌, ◌≤◌};
ghost use Rattle.algebra.specs.Prelude.{ltb, length, get_or, drop};
ghost use Rattle.sequences.specs.Write.{written};
ghost use Rattle.refusals.specs.Refused.{answer_of};
ghost use Rattle.refusals.specs.Some.{some};
ghost use Rattle.printing.specs.Put.{Printed};
ghost use Rattle.file_pgm.specs.Samples.Samples.{bytes_of, some_above, above_refusal, samples_of};
ghost use Rattle.file_pgm.specs.Samples.Blocks.{high, words_from, exchanged};

use geometry::SAMPLE_MOST;
use refusals::{Refusal, refuse};

// The bits that samples of the frame have: above 4095 where a sample is.
fn bits(frame: &[u16]) -> u16
    ensures { some_above frame.now ≡ ltb 4095 result }
{
    let mut seen: u16 = 0;
    for sample in frame {
        seen |= *sample;
    }
    seen
}

// Refusal 11 of a frame.
#[tactic(auto, unfolding(crate::specs::Samples::Samples::above_refusal))]
pub fn frame_refusal(frame: &[u16]) -> Result<(), Refusal>
    ensures { answer_of result ≡ above_refusal frame.now }
{
    refuse(Refusal::SampleValue, bits(frame) > SAMPLE_MOST)
}

// The bits that the high bytes of 64 samples have, the first at a place. All 128 bytes are read and every second counts: only bytes in their order
// become vector instructions.
fn high_bits(bytes: &[u8], from: usize) -> u8
    requires { from + 128 ≤ length bytes.now }
    ensures { some 128 (λ k. ltb 15 (high bytes.now from k)) ≡ ltb 15 result }
{
    let mut seen: u8 = 0;
    for k in 0..128 {
        seen |= bytes[from + k] * (1 - k % 2) as u8;
    }
    seen
}

// Refusal 11 of the `count` samples from a place on, to the end of the bytes.
pub fn raster_refusal(bytes: &[u8], start: usize, count: usize) -> Result<(), Refusal>
    requires { (length bytes.now ≡ start + 2 * count) × (count % 64 ≡ 0) }
    ensures { answer_of result ≡ above_refusal (samples_of (drop start bytes.now)) }
{
    for i in (0..count).step_by(64) {
        if high_bits(bytes, start + 2 * i) > 15 {
            return Err(Refusal::SampleValue);
        }
    }
    Ok(())
}

// The bytes of a frame, put from a place on.
pub fn put_frame(bytes: &mut [u8], at: usize, frame: &[u16])
    requires { at + 2 * length frame.now ≤ length bytes.old }
    ensures { Printed bytes.old at (bytes_of frame.now) bytes.new (at + 2 * length frame.now) }
{
    for (i, &sample) in frame.iter().enumerate() {
        let high = (sample / 256) as u8;
        let low = (sample % 256) as u8;
        bytes[at + 2 * i] = high;
        bytes[at + 2 * i + 1] = low;
    }
}

// The 64 words from a place on, low byte first: a copy of the bytes, which the compiler makes without a look at each.
fn words(bytes: &[u8], from: usize) -> [u16; 64]
    requires { from + 128 ≤ length bytes.now }
    ensures { result ≡ words_from bytes.now from }
{
    let mut block = [0u16; 64];
    for k in 0..64 {
        let first = bytes[from + 2 * k] as u16;
        let second = bytes[from + 2 * k + 1] as u16;
        block[k] = first + second * 256;
    }
    block
}

// The 64 words with their bytes exchanged, into a frame from a place on.
fn put_words(block: &[u16; 64], frame: &mut [u16], at: usize)
    requires { at + 64 ≤ length frame.old }
    ensures { frame.new ≡ written frame.old at (λ k. exchanged (get_or block.now k 0)) 64 }
{
    for k in 0..64 {
        let word = block[k];
        frame[at + k] = word % 256 * 256 + word / 256 % 256;
    }
}

// The samples from a place on, to the end of the bytes, into all of a frame.
pub fn fill(bytes: &[u8], start: usize, frame: &mut [u16])
    requires { (length bytes.now ≡ start + 2 * length frame.old) × (length frame.old % 64 ≡ 0) }
    ensures { frame.new ≡ samples_of (drop start bytes.now) }
{
    for at in (0..frame.len()).step_by(64) {
        let block = words(bytes, start + 2 * at);
        put_words(&block, &mut *frame, at);
    }
}
