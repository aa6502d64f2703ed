// The Wiener step on the bins of two planes side by side, for columns 0 to 8: lane l is column l / 2 of plane l % 2. A bin is put together from the places of two
// lines, of real and of imaginary parts, as the halfcomplex form has them.
ghost use Rattle.std.specs.Prelude.{◌≡◌, ◌/◌, ◌%◌, ◌<◌};
ghost use Rattle.tile_spatial.specs.Prelude.{pos, length, AtMost, tab, cell, frequency, TileMost, copy_bin_most, spatial_most, real_of, imaginary_of, beside, tile_re, tile_im};
ghost use Rattle.tile_spatial.specs.Filtering.{NoiseLine};
ghost use Rattle.tile_spatial.specs.Steps.{copy_place_most, lines_in, lane_re, lane_im};

use tile_bin::copies::filtered_part;

// The real part of number u of the line in column l.
fn real(w: &[[i64; 32]; 16], u: usize, l: usize) -> i64
    requires { record { places_most : TileMost copy_place_most w.now; u_below : u < 16; l_below : l < 32 } }
    ensures { (result ≡ real_of (λ b. cell (pos 0) w.now b l) u) × (AtMost copy_place_most result) }
{
    if u < 9 {
        return w[u][l];
    }
    w[16 - u][l]
}

// Its imaginary part.
fn imaginary(w: &[[i64; 32]; 16], u: usize, l: usize) -> i64
    requires { record { places_most : TileMost copy_place_most w.now; u_below : u < 16; l_below : l < 32 } }
    ensures { (result ≡ imaginary_of (λ b. cell (pos 0) w.now b l) u) × (AtMost copy_place_most result) }
{
    if u % 8 == 0 {
        return 0;
    }
    if u < 9 {
        return w[8 + u][l];
    }
    0 - w[24 - u][l]
}

// The real part of number u of the line of imaginary parts beside lane l; columns 0 and 8 have none.
fn beside_real(w: &[[i64; 32]; 16], u: usize, l: usize) -> i64
    requires { record { places_most : TileMost copy_place_most w.now; u_below : u < 16; l_below : l < 18 } }
    ensures { (result ≡ real_of (beside (lines_in w.now (l % 2)) (l / 2)) u) × (AtMost copy_place_most result) }
{
    if l / 2 % 8 == 0 {
        return 0;
    }
    real(w, u, 16 + l)
}

// Its imaginary part.
fn beside_imaginary(w: &[[i64; 32]; 16], u: usize, l: usize) -> i64
    requires { record { places_most : TileMost copy_place_most w.now; u_below : u < 16; l_below : l < 18 } }
    ensures { (result ≡ imaginary_of (beside (lines_in w.now (l % 2)) (l / 2)) u) × (AtMost copy_place_most result) }
{
    if l / 2 % 8 == 0 {
        return 0;
    }
    imaginary(w, u, 16 + l)
}

// The real part of bin u of lane l.
pub fn bin_re(w: &[[i64; 32]; 16], u: usize, l: usize) -> i64
    requires { record { places_most : TileMost copy_place_most w.now; u_below : u < 16; l_below : l < 18 } }
    ensures { (result ≡ tile_re (lines_in w.now (l % 2)) u (l / 2)) × (AtMost copy_bin_most result) }
{
    real(w, u, l) - beside_imaginary(w, u, l)
}

// Its imaginary part.
pub fn bin_im(w: &[[i64; 32]; 16], u: usize, l: usize) -> i64
    requires { record { places_most : TileMost copy_place_most w.now; u_below : u < 16; l_below : l < 18 } }
    ensures { (result ≡ tile_im (lines_in w.now (l % 2)) u (l / 2)) × (AtMost copy_bin_most result) }
{
    imaginary(w, u, l) + beside_real(w, u, l)
}

// An index above 8 counts as 16 minus itself.
pub fn counted(u: usize) -> usize
    requires { u < 16 }
    ensures { (result ≡ frequency u) × (result < 9) }
{
    if u > 8 {
        return 16 - u;
    }
    u
}

// g and h: both parts of the step in bins u of all lanes, at V' of each.
pub fn gain_row(
    w: &[[i64; 32]; 16],
    noises: &[u64; 18],
    u: usize,
    g: &mut [i64; 18],
    h: &mut [i64; 18],
)
    requires { record { places_most : TileMost copy_place_most w.now; noises_most : NoiseLine spatial_most noises.now; u_below : u < 16; g_long : length g.old ≡ 18; h_long : length h.old ≡ 18 } }
    ensures { (g.new ≡ tab 18 (lane_re noises.now w.now u)) × (h.new ≡ tab 18 (lane_im noises.now w.now u)) }
{
    for l in 0..18 {
        let a = bin_re(w, u, l);
        let b = bin_im(w, u, l);
        g[l] = filtered_part(noises[l], a, b);
        h[l] = filtered_part(noises[l], b, a);
    }
}
