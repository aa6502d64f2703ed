// Both parts g and h of the step, folded for the inverse: lane l of columns 0 to 8, and lanes 18 to 31 for the imaginary parts of columns 1 to 7.
ghost use Rattle.std.specs.Prelude.{◌≡◌, ◌*◌, ◌/◌, ◌%◌, ◌<◌};
ghost use Rattle.tile_spatial.specs.Prelude.{pos, binary64, of_int, AtMost, tab, cell, TileMost, spatial_gain_most, transposed, fold_re, fold_im, spread, plane_in, side_by_side, doubles};

// Place b of the real parts of lane l.
fn re_place(g: &[[i64; 18]; 16], h: &[[i64; 18]; 16], b: usize, l: usize) -> i64
    requires { record { re_most : TileMost spatial_gain_most g.now; im_most : TileMost spatial_gain_most h.now; b_below : b < 16; l_below : l < 18 } }
    ensures { (result ≡ fold_re (λ u. cell (pos 0) g.now u l) (λ u. cell (pos 0) h.now u l) b) × (AtMost (2 * spatial_gain_most) result) }
{
    if b % 8 == 0 {
        return g[b][l];
    }
    if b < 9 {
        return g[b][l] + g[16 - b][l];
    }
    h[b - 8][l] - h[24 - b][l]
}

// Place b of its imaginary parts: that of the real parts with g and h exchanged, and past place 8 with the other sign.
fn im_place(g: &[[i64; 18]; 16], h: &[[i64; 18]; 16], b: usize, l: usize) -> i64
    requires { record { re_most : TileMost spatial_gain_most g.now; im_most : TileMost spatial_gain_most h.now; b_below : b < 16; l_below : l < 18 } }
    ensures { (result ≡ fold_im (λ u. cell (pos 0) g.now u l) (λ u. cell (pos 0) h.now u l) b) × (AtMost (2 * spatial_gain_most) result) }
{
    let r = re_place(h, g, b, l);
    if b < 9 {
        return r;
    }
    0 - r
}

// Place b of lane l.
fn folded(g: &[[i64; 18]; 16], h: &[[i64; 18]; 16], b: usize, l: usize) -> i64
    requires { record { re_most : TileMost spatial_gain_most g.now; im_most : TileMost spatial_gain_most h.now; b_below : b < 16; l_below : l < 32 } }
    ensures { (result ≡ spread (plane_in (cell (pos 0) g.now) (l % 2)) (plane_in (cell (pos 0) h.now) (l % 2)) (l / 2) b) × (AtMost (2 * spatial_gain_most) result) }
{
    if l < 18 {
        return re_place(g, h, b, l);
    }
    im_place(g, h, b, l - 16)
}

// Places b of all lanes, in double.
fn fold_row(g: &[[i64; 18]; 16], h: &[[i64; 18]; 16], b: usize) -> [f64; 32]
    requires { record { re_most : TileMost spatial_gain_most g.now; im_most : TileMost spatial_gain_most h.now; b_below : b < 16 } }
    ensures { result ≡ tab 32 (λ l. of_int binary64 (spread (plane_in (cell (pos 0) g.now) (l % 2)) (plane_in (cell (pos 0) h.now) (l % 2)) (l / 2) b)) }
{
    std::array::from_fn(|l| folded(g, h, b, l) as f64)
}

// All places.
pub fn folds(g: &[[i64; 18]; 16], h: &[[i64; 18]; 16]) -> [[f64; 32]; 16]
    requires { record { re_most : TileMost spatial_gain_most g.now; im_most : TileMost spatial_gain_most h.now } }
    ensures { result ≡ doubles (side_by_side (λ p. transposed (spread (plane_in (cell (pos 0) g.now) p) (plane_in (cell (pos 0) h.now) p)))) }
{
    std::array::from_fn(
        |b: usize| -> [f64; 32]
            requires { record { re_most : TileMost spatial_gain_most g.now; im_most : TileMost spatial_gain_most h.now; b_below : b < 16 } }
            ensures { result ≡ tab 32 (λ l. of_int binary64 (spread (plane_in (cell (pos 0) g.entry.now) (l % 2)) (plane_in (cell (pos 0) h.entry.now) (l % 2)) (l / 2) b)) }
        { fold_row(g, h, b) },
    )
}
