// The arithmetic of a halving: its weights, the places that it reads, and a value of the halved image.
ghost use Rattle.std.specs.Prelude.{◌≡◌, ◌+◌, ◌*◌, ◌/◌, ◌<◌, ◌≤◌};
ghost use Rattle.geometry.specs.Read.{inside};
ghost use Rattle.align_pyramid.specs.Halving.Halving.{weights, tap};
ghost use Rattle.align_pyramid.specs.Halving.Columns.{FourSums};

// The weights 1 3 3 1.
pub fn weigh(a: u32, b: u32, c: u32, d: u32) -> u32
    requires { FourSums a b c d }
    ensures { result ≡ weights a b c d }
{
    a + 3 * b + 3 * c + d
}

// The index that is read at the place number `k` of the four around `p`. They reach one place outside at most, where a mirror reads the nearest edge.
pub fn tap_index(size: usize, p: usize, k: usize) -> usize
    requires { record { some : 0 < size; most : size ≤ 4096; near : 2 * p + k ≤ size + 1 } }
    ensures { (result ≡ inside size (tap p k)) × (result < size) }
{
    let q = 2 * p + k;
    if q == 0 {
        return 0;
    }
    if q > size {
        return size - 1;
    }
    q - 1
}

// The value of the halved image from four column sums.
pub fn halved_value(a: u32, b: u32, c: u32, d: u32) -> u32
    requires { FourSums a b c d }
    ensures { result ≡ (weights a b c d + 32) / 64 }
{
    (weigh(a, b, c, d) + 32) / 64
}
