// V' of each bin of a tile, for the spatial filter (request L13).
ghost use Rattle.std.specs.Prelude.{◌≡◌, ◌≤◌, ◌<◌, ◌*◌, ◌/◌};
ghost use Rattle.noise.specs.Prelude.{ℕ, get_or, tab, grid, side16, variance, spatial_number};
ghost use Rattle.noise.specs.SpatialRange.{SpatialRange, scale_most};

// m of each bin: the whole root of 256·(u² + v²). Indices above 8 count as 16 minus themselves, and have no lines of their own.
const DISTANCES: [[u64; 9]; 9] = [
    [0, 16, 32, 48, 64, 80, 96, 112, 128],
    [16, 22, 35, 50, 65, 81, 97, 113, 128],
    [32, 35, 45, 57, 71, 86, 101, 116, 131],
    [48, 50, 57, 67, 80, 93, 107, 121, 136],
    [64, 65, 71, 80, 90, 102, 115, 128, 143],
    [80, 81, 86, 93, 102, 113, 124, 137, 150],
    [96, 97, 101, 107, 115, 124, 135, 147, 160],
    [112, 113, 116, 121, 128, 137, 147, 158, 170],
    [128, 128, 131, 136, 143, 150, 160, 170, 181],
];

// A line of V' from that line of m: s·m·(Ls·r + 16·Lr)/(16384·N), where `scale` is s·(Ls·r + 16·Lr).
fn line(distances: &[u64; 9], scale: u64, divisor: u64) -> [u64; 9]
    requires { record { distances_most : (j : ℕ) → get_or distances.now j 0 ≤ 181; scale-most : scale ≤ scale_most; divisor_some : 0 < divisor } }
    ensures { result ≡ tab 9 (λ v. get_or distances.now v 0 * scale / divisor) }
{
    let mut r = [0u64; 9];
    for v in 0..9 {
        r[v] = distances[v] * scale / divisor;
    }
    r
}

// V' of each bin (u, v) of a tile of root r, u and v up to 8, of N = `frames` frames.
pub fn spatial_numbers(s: u64, ls: u64, lr: u64, r: u64, frames: u64) -> [[u64; 9]; 9]
    requires { SpatialRange s ls lr r frames }
    ensures { result ≡ grid 9 9 (spatial_number side16 s ls lr r frames) }
{
    let table = DISTANCES;
    let scale = s * (ls * r + 16 * lr);
    let divisor = 16384 * frames;
    let mut n = [[0u64; 9]; 9];
    for u in 0..9 {
        n[u] = line(&table[u], scale, divisor);
    }
    n
}
