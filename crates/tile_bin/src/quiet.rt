// Whether the noise of a pair is low, so that the inverse's last sums stay in double.
ghost use Rattle.std.specs.Prelude.{◌≡◌, ◌≤◌};
ghost use Rattle.algebra.specs.Prelude.{true};

// 2^33, and 2^29 at side 32: V up to which the inverse's last sums stay below 5·2^49
pub const LOW_NOISE: u64 = 8589934592;

pub const LONG_LOW_NOISE: u64 = 536870912;

// 2^32: V up to which they stay below 2^53 at side 32
pub const LONG_MIDDLE_NOISE: u64 = 4294967296;

// Whether V is at most this in both planes.
pub fn both_most(most: u64, first: u64, second: u64) -> bool
    ensures { result ≡ true → (first ≤ most) × (second ≤ most) }
{
    first.max(second) <= most
}
