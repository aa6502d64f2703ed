// The noise curve of a NoiseProfile, and the f64 of a bit pattern, a NaN's too.
ghost use Rattle.std.specs.Prelude.{◌≡◌};
ghost use Rattle.std.specs.Float.{binary64};
ghost use Rattle.std.specs.Float.Ieee.{of_bits, nan_bits};
ghost use Rattle.file_dng.specs.Curve.{shot_of, read_of};

// WhiteLevel, by which a profile in parts of white becomes one in samples.
const WHITE: f64 = 4095.0;

// The sign's bit, and the first bit above the fraction's.
const SIGN: u64 = 9223372036854775808;

const FRACTION: u64 = 4503599627370496;

// Whether the pattern is a NaN's: every bit of the exponent, and some bit of the fraction.
fn nan_pattern(bits: u64) -> bool
    ensures { result ≡ nan_bits binary64 bits }
{
    (bits % SIGN / FRACTION == 2047) & (bits % FRACTION != 0)
}

// The f64 of a pattern. That of a NaN is made by 0/0: which NaN `from_bits` hands back is not settled.
fn double_of(bits: u64) -> f64
    ensures { result ≡ of_bits binary64 bits }
{
    if nan_pattern(bits) {
        0.0 / 0.0
    } else {
        f64::from_bits(bits)
    }
}

// Shot, from the pattern of S.
pub fn shot_of(bits: u64) -> f64
    ensures { result ≡ shot_of (of_bits binary64 bits) }
{
    double_of(bits) * WHITE
}

// Read, from the pattern of O: two products, the inner one first.
pub fn read_of(bits: u64) -> f64
    ensures { result ≡ read_of (of_bits binary64 bits) }
{
    double_of(bits) * WHITE * WHITE
}
