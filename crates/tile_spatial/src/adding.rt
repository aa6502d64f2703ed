// N times a pair, added to the sums.
ghost use Rattle.std.specs.Prelude.{◌≡◌, ◌+ℤ◌, ◌*ℤ◌};
ghost use Rattle.tile_spatial.specs.Prelude.{pos, length, get_or, AtMost, tab, grid, cell, LineMost, TileMost, spatial_correction_most, Paired};
ghost use Rattle.tile_spatial.specs.Filtering.{Frames, SumMost, SumRow, SumPair};

// N·p and the sum s.
fn add_part(frames: u64, p: i64, s: i64) -> i64
    requires { record { frames_fit : Frames frames; part : AtMost spatial_correction_most p; sum-most : SumMost frames s } }
    ensures { result ≡ s +ℤ pos frames *ℤ p }
{
    s + frames as i64 * p
}

// Those of a row.
fn add_row(frames: u64, p: &[i64; 32], sum: &mut [i64; 32])
    requires { record { frames_fit : Frames frames; part : LineMost spatial_correction_most p.now; sums : SumRow frames sum.old; long : length sum.old ≡ 32 } }
    ensures { sum.new ≡ tab 32 (λ l. get_or sum.old l (pos 0) +ℤ pos frames *ℤ get_or p.now l (pos 0)) }
{
    for l in 0..32 {
        sum[l] = add_part(frames, p[l], sum[l]);
    }
}

// Those of a pair.
pub fn add_times(frames: u64, p: &[[i64; 32]; 16], sum: &mut [[i64; 32]; 16])
    requires { record { frames_fit : Frames frames; part : TileMost spatial_correction_most p.now; sums : SumPair frames sum.old; paired : Paired (pos 0) sum.old } }
    ensures { sum.new ≡ grid 16 32 (λ y l. cell (pos 0) sum.old y l +ℤ pos frames *ℤ cell (pos 0) p.now y l) }
{
    for y in 0..16 {
        add_row(frames, &p[y], &mut sum[y]);
    }
}
