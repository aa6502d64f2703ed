// Sums of absolute differences over tiles of side 32, row by row: its distances are added by fours in 16 bits, as those of two rows are at side 16.
ghost use Rattle.std.specs.Prelude.{◌≡◌, ◌+◌, ◌*◌, ◌≤◌};
ghost use Rattle.algebra.specs.Prelude.{false};
ghost use Rattle.align_residual.specs.Magnitudes.{pair_most};
ghost use Rattle.align_residual.specs.Local.{row_sum, square_sum, Compared};

use crate::sixteen::absolute_pair;

// A row of the tile from `a` on against the window's from `b` on.
pub fn absolute_row(tile: &[u16], window: &[u16], a: usize, b: usize) -> u32
    requires { Compared tile.now window.now (a + 32) (b + 32) }
    ensures { (result ≡ row_sum false tile.now window.now a b 32) × (result ≤ pair_most) }
{
    absolute_pair::<16>(tile, window, a, b)
}

// A whole tile against the window from `start` on, whose rows stand `stride` apart.
pub fn absolute_sum(tile: &[u16], window: &[u16], start: usize, stride: usize) -> u32
    requires { (Compared tile.now window.now 1024 (start + 31 * stride + 32)) × (stride ≤ 64) }
    ensures { (result ≡ square_sum false tile.now window.now start stride 32) × (result ≤ 32 * pair_most) }
{
    let mut sum: u32 = 0;
    for i in 0..32 {
        sum += absolute_row(tile, window, i * 32, start + i * stride);
    }
    sum
}
