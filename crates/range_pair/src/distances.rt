// How far both parts of G at two noise numbers are apart, in columns 0 to 8 of two planes: lane l is column l / 2 of plane l % 2. G comes folded, and the
// bins of what the folds are apart are the parts, twice or once.
ghost use Rattle.std.specs.Prelude.{◌≡◌, ◌*◌, ◌/◌, ◌<◌};
ghost use Rattle.range_pair.specs.Prelude.{false, nat_abs, length, get_or, nan, AtMost, tab, TileMost, WholeDouble, WholeRow, fold_most, InDouble};
ghost use Rattle.range_pair.specs.Factors.{apart_most, place_apart, places_apart, times_at, distance_re, distance_im};

use rounding::magnitude;
use tile_spatial::gains::{bin_im, bin_re};

// A place of one folded G less that of the other.
fn apart(a: f64, b: f64) -> i64
    requires { (WholeDouble (fold_most false) a) × (WholeDouble (fold_most false) b) }
    ensures { result ≡ place_apart a b }
{
    a as i64 - b as i64
}

// A row of them.
fn apart_row(a: &[f64; 32], b: &[f64; 32]) -> [i64; 32]
    requires { (WholeRow (fold_most false) a.now) × (WholeRow (fold_most false) b.now) }
    ensures { result ≡ tab 32 (λ l. place_apart (get_or a.now l nan) (get_or b.now l nan)) }
{
    let mut r = [0i64; 32];
    for l in 0..32 {
        r[l] = apart(a[l], b[l]);
    }
    r
}

// All places of a pair.
pub fn apart_pair(a: &[[f64; 32]; 16], b: &[[f64; 32]; 16]) -> [[i64; 32]; 16]
    requires { (InDouble (fold_most false) a.now) × (InDouble (fold_most false) b.now) }
    ensures { result ≡ places_apart a.now b.now }
{
    let mut r = [[0i64; 32]; 16];
    for k in 0..16 {
        r[k] = apart_row(&a[k], &b[k]);
    }
    r
}

// How often a part of bin (u, v) counts.
fn times(u: usize, v: usize) -> u64
    ensures { result ≡ times_at u v }
{
    if u % 8 == 0 {
        if v % 8 == 0 {
            return 2;
        }
        return 4;
    }
    if v % 8 == 0 {
        return 1;
    }
    2
}

// What a part z of bin u of lane l counts for.
fn distance(u: usize, l: usize, z: i64) -> u64
    requires { AtMost (2 * apart_most) z }
    ensures { result ≡ times_at u (l / 2) * nat_abs z }
{
    times(u, l / 2) * magnitude(z)
}

// re and im: the distances of bins u of all lanes.
pub fn distance_row(w: &[[i64; 32]; 16], u: usize, re: &mut [u64; 18], im: &mut [u64; 18])
    requires { record { places_most : TileMost apart_most w.now; u_below : u < 16; re_long : length re.old ≡ 18; im_long : length im.old ≡ 18 } }
    ensures { (re.new ≡ tab 18 (distance_re w.now u)) × (im.new ≡ tab 18 (distance_im w.now u)) }
{
    for l in 0..18 {
        let a = bin_re(w, u, l);
        let b = bin_im(w, u, l);
        re[l] = distance(u, l, a);
        im[l] = distance(u, l, b);
    }
}
