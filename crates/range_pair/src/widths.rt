// How far the ends of a pair's inverse sums are apart, twice. Lane l of a row is column l / 2 of plane l % 2.
ghost use Rattle.std.specs.Prelude.{◌≡◌, ◌+◌, ◌*◌, ◌≤◌, ◌<◌};
ghost use Rattle.range_pair.specs.Prelude.{tab, grid};
ghost use Rattle.range_pair.specs.Factors.{factor_most, Factored, FactoredTile, distance_most, Distant, DistantTile, line_width, pair_width, bin_width_most, line_width_most, width_most};

// Two distances, each times its factor.
fn weighed(f: u64, a: u64, g: u64, b: u64) -> u64
    requires { record { factors_most : f + g ≤ factor_most; first_most : a ≤ distance_most; second_most : b ≤ distance_most } }
    ensures { (result ≡ f * a + g * b) × (result ≤ bin_width_most) }
{
    f * a + g * b
}

// The distances of a line of bins of plane p, each times its factor, at column x.
fn line_width(f: &[u64; 16], re: &[u64; 18], im: &[u64; 18], x: usize, p: usize) -> u64
    requires { record { factored : Factored f.now; re_most : Distant re.now; im_most : Distant im.now; x_below : x < 8; p_below : p < 2 } }
    ensures { (result ≡ line_width f.now re.now im.now x p) × (result ≤ line_width_most) }
{
    let mut sum = 0u64;
    for v in 0..9 {
        let k = 2 * (v * x % 8);
        let l = 2 * v + p;
        sum = sum + weighed(f[k], re[l], f[k + 1], im[l]);
    }
    sum
}

// Of all lines, at row y and lane l.
fn width(f: &[[u64; 16]; 8], re: &[[u64; 18]; 16], im: &[[u64; 18]; 16], y: usize, l: usize) -> u64
    requires { record { factored : FactoredTile f.now; re_most : DistantTile re.now; im_most : DistantTile im.now; y_below : y < 8; l_below : l < 16 } }
    ensures { (result ≡ pair_width f.now re.now im.now y l) × (result ≤ width_most) }
{
    let mut sum = 0u64;
    for u in 0..16 {
        let k = u * y % 8;
        sum = sum + line_width(&f[k], &re[u], &im[u], l / 2, l % 2);
    }
    sum
}

// The same for a row of them.
fn width_row(f: &[[u64; 16]; 8], re: &[[u64; 18]; 16], im: &[[u64; 18]; 16], y: usize) -> [u64; 16]
    requires { record { factored : FactoredTile f.now; re_most : DistantTile re.now; im_most : DistantTile im.now; y_below : y < 8 } }
    ensures { result ≡ tab 16 (pair_width f.now re.now im.now y) }
{
    let mut r = [0u64; 16];
    for l in 0..16 {
        let w = width(f, re, im, y, l);
        r[l] = w;
    }
    r
}

// And for eight rows and columns: from there on they repeat.
pub fn widths(f: &[[u64; 16]; 8], re: &[[u64; 18]; 16], im: &[[u64; 18]; 16]) -> [[u64; 16]; 8]
    requires { record { factored : FactoredTile f.now; re_most : DistantTile re.now; im_most : DistantTile im.now } }
    ensures { result ≡ grid 8 16 (pair_width f.now re.now im.now) }
{
    let mut r = [[0u64; 16]; 8];
    for y in 0..8 {
        r[y] = width_row(f, re, im, y);
    }
    r
}
