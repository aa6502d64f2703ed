// The first pass of the two-way transform, down the columns of a pair of differences.
ghost use Rattle.std.specs.Prelude.{◌≡◌};
ghost use Rattle.tile_pair.specs.Prelude.{pos, grid, cell, halfcomplex, difference_most, TileMost, Paired};

use tile_spectrum::columns::{column, set_column};

// r: the transform of each column, as a column.
pub fn forward(d: &[[i16; 32]; 16], r: &mut [[i32; 32]; 16])
    requires { (TileMost difference_most d.now) × (Paired (pos 0) r.old) }
    ensures { r.new ≡ grid 16 32 (λ b l. halfcomplex (λ y. cell (pos 0) d.now y l) b) }
{
    for l in 0..32 {
        let c = column(d, l);
        let z = tile_lines::whole::halfcomplex(&c);
        set_column(&mut *r, l, &z);
    }
}
