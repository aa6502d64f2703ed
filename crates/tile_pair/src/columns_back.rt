// The first pass of the inverse, down the columns of a pair of folded spectra, in place.
ghost use Rattle.std.specs.Prelude.{◌≡◌};
ghost use Rattle.tile_pair.specs.Prelude.{false, backward, fold_most, Paired, InDouble, doubles, nan};

use tile_spectrum::columns::{column, set_column};

// g: the sums back down each column.
pub fn back(g: &mut [[f64; 32]; 16])
    requires { Paired nan g.old }
    ensures { (w : InDouble (fold_most false) g.old) → g.new ≡ doubles (λ y l. backward (λ b. w.number b l) y) }
{
    for l in 0..32 {
        let c = column(&*g, l);
        let z = tile_lines::back::backward(&c);
        set_column(&mut *g, l, &z);
    }
}
