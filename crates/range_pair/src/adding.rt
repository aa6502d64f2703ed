// A pair added to a pair of sums.
ghost use Rattle.std.specs.Prelude.{◌≡◌};
ghost use Rattle.range_pair.specs.Prelude.{pos, get_or, cell, LineMost, TileMost, correction_most};
ghost use Rattle.range_pair.specs.Added.{RowSums, PairSums, row_plus, pair_plus};

// A row of it.
fn add_row(p: &[i64; 32], sum: &mut [i64; 32])
    requires { record { part : LineMost correction_most p.now; sums : RowSums sum.old } }
    ensures { sum.new ≡ row_plus sum.old (λ l. get_or p.now l (pos 0)) }
{
    for l in 0..32 {
        sum[l] = sum[l] + p[l];
    }
}

// All of it.
pub fn add_pair(p: &[[i64; 32]; 16], sum: &mut [[i64; 32]; 16])
    requires { record { part : TileMost correction_most p.now; sums : PairSums sum.old } }
    ensures { sum.new ≡ pair_plus sum.old (cell (pos 0) p.now) }
{
    for y in 0..16 {
        add_row(&p[y], &mut sum[y]);
    }
}
