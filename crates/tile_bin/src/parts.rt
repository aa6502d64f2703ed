// G from Q in whole numbers, one part of a bin at a time.
ghost use Rattle.std.specs.Prelude.{◌≡◌, ◌<◌, ◌≤◌, ◌^◌, ◌*ℤ◌};
ghost use Rattle.tile_bin.specs.Prelude.{nat_abs, pos, AtMost, wiener, copy_part_most, gain_most, noise_most};

// One part of the Wiener step at V, from that part q and the other part r, where V·q fits.
pub fn step(noise: u64, q: i64, r: i64) -> i64
    requires { record { noise-most : noise ≤ noise_most; part : AtMost copy_part_most q; other : AtMost copy_part_most r; product_below : nat_abs (pos noise *ℤ q) < 2 ^ 63 } }
    ensures { result ≡ wiener noise q r }
{
    if noise == 0 {
        return 0;
    }
    let v = noise as i64;
    let signal = q * q + r * r;
    let power = signal + v;
    rounding::round_away(v * q, power as u64)
}

// One part of G, from that part q of Q and the other part r.
pub fn wiener_part(noise: u64, q: i64, r: i64) -> i64
    requires { record { noise-most : noise ≤ noise_most; part : AtMost gain_most q; other : AtMost gain_most r } }
    ensures { (result ≡ wiener noise q r) × (AtMost gain_most result) }
{
    step(noise, q, r)
}
