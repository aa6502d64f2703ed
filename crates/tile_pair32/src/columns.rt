// The first pass of the two-way transform, down the columns of a pair of differences.
ghost use Rattle.std.specs.Prelude.{◌≡◌};
ghost use Rattle.tile_pair32.specs.Prelude.{pos, side32, grid, cell, halfcomplex_of, difference_most, TileMost, LongPaired};

use tile_spectrum::columns::{column, set_column};

// r: the transform of each column, as a column.
pub fn forward(d: &[[i16; 64]; 32], r: &mut [[i32; 64]; 32])
    requires { (TileMost difference_most d.now) × (LongPaired (pos 0) r.old) }
    ensures { r.new ≡ grid 32 64 (λ b l. halfcomplex_of side32 (λ y. cell (pos 0) d.now y l) b) }
{
    for l in 0..64 {
        let c = column(d, l);
        let z = tile_lines32_whole::halfcomplex(&c);
        set_column(&mut *r, l, &z);
    }
}
