// Division to nearest, halves away from zero. Half of the divisor is added: nothing is doubled, so nothing overflows.
#![tactic(auto)]

ghost use Rattle.std.specs.Prelude.{◌≡◌, ◌-◌, ◌≤◌, ◌<◌, ◌^◌};
ghost use Rattle.algebra.specs.Prelude.{pos, nat_abs, neg_ℤ};
ghost use Rattle.algebra.specs.Nearest.{away, upward};

// 1.5·2^52: a sum with it has units of 1
pub const MIDDLE: f64 = 6755399441055744.0;

// and its bits
pub const MIDDLE_BITS: i64 = 4843621399236968448;

// 2^-31·(1 + 2^-52): a product with it lies above the quotient by 2^31, by too little for anything but a half to be rounded otherwise
pub const BY_2_31: f64 = 0.00000000046566128730773936121007656912846;

// 2^31, and 2^-31·(1 - 2^-53): a product with the last lies below the quotient by 2^31, so that a half is rounded down
pub const TWO_31: f64 = 2147483648.0;

pub const UNDER_2_31: f64 = 0.00000000046566128730773920611371171543577;

// |z|
pub fn magnitude(z: i64) -> u64
    requires { nat_abs z < 2 ^ 63 }
    ensures { result ≡ nat_abs z }
{
    if z < 0 {
        return (0 - z) as u64;
    }
    z as u64
}

// a as a signed number.
fn signed(a: u64) -> i64
    requires { a < 2 ^ 63 }
    ensures { result ≡ pos a }
{
    a as i64
}

// −a
fn negated(a: u64) -> i64
    requires { a < 2 ^ 63 }
    ensures { result ≡ neg_ℤ (pos a) }
{
    0 - a as i64
}

// a itself. For the exclusive or, with bits of m that are 0, the compiler takes a dividend to be long, and leaves out a test for short ones: a branch that
// the data would decide.
fn long(a: u64, m: u64) -> u64
    requires { m < 2 ^ 60 }
    ensures { result ≡ a }
{
    a ^ (m >> 60)
}

// a / m to nearest, halves upward.
fn halves_up(a: u64, m: u64) -> u64
    requires { record { divisor_some : 0 < m; divisor_below : m < 2 ^ 60; dividend_below : a < 2 ^ 63 } }
    ensures { (pos result ≡ upward (pos a) m) × (result ≤ a) }
{
    long(a + m / 2, m) / m
}

// z / m to nearest, halves away from zero.
pub fn round_away(z: i64, m: u64) -> i64
    requires { record { divisor_some : 0 < m; divisor_below : m < 2 ^ 60; dividend_below : nat_abs z < 2 ^ 63 } }
    ensures { result ≡ away z m }
{
    let n = halves_up(magnitude(z), m);
    if z < 0 {
        return negated(n);
    }
    signed(n)
}

// Halves of 2^31 and 2^32.
const HALF_2_31: i64 = 1073741824;

const HALF_2_32: i64 = 2147483648;

// z / 2^31 to nearest, halves away from zero, by shifts: z >> 63 is −1 below zero and 0 from zero on.
pub fn round_away_31(z: i64) -> i64
    requires { nat_abs z < 2 ^ 63 - 2 ^ 32 }
    ensures { result ≡ away z (2 ^ 31) }
{
    (z + HALF_2_31 + (z >> 63)) >> 31
}

// The same of z / 2^32.
pub fn round_away_32(z: i64) -> i64
    requires { nat_abs z < 2 ^ 63 - 2 ^ 32 }
    ensures { result ≡ away z (2 ^ 32) }
{
    (z + HALF_2_32 + (z >> 63)) >> 32
}
