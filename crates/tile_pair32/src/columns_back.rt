// The first pass of the inverse, down the columns of a pair of folded spectra, in place.
ghost use Rattle.std.specs.Prelude.{◌≡◌};
ghost use Rattle.tile_pair32.specs.Prelude.{false, side32, backward_of, long_fold_most, LongPaired, LongInDouble, long_doubles, nan};

use tile_spectrum::columns::{column, set_column};

// g: the sums back down each column.
pub fn back(g: &mut [[f64; 64]; 32])
    requires { LongPaired nan g.old }
    ensures { (w : LongInDouble (long_fold_most false false) g.old) → g.new ≡ long_doubles (λ y l. backward_of side32 (λ b. w.number b l) y) }
{
    for l in 0..64 {
        let c = column(&*g, l);
        let z = tile_lines32_back::backward(&c);
        set_column(&mut *g, l, &z);
    }
}
