// The second pass of the two-way transform, along the rows of a pair that the pass down the columns leaves. Its kernel is called from two places, so that it is
// compiled by itself.
ghost use Rattle.std.specs.Prelude.{◌≡◌};
ghost use Rattle.tile_pair.specs.Prelude.{pos, cell, halfcomplex, pair_line_most, TileMost, Paired, plane_in, side_by_side, doubles, nan};

// r: the transforms of each row's two lines.
pub fn rows(t: &[[i32; 32]; 16], r: &mut [[f64; 32]; 16])
    requires { (TileMost pair_line_most t.now) × (Paired nan r.old) }
    ensures { r.new ≡ doubles (side_by_side (λ p b. halfcomplex (plane_in (cell (pos 0) t.now) p b))) }
{
    for b in 0..8 {
        tile_lines::double::halfcomplex(&t[b], &mut r[b]);
        tile_lines::double::halfcomplex(&t[8 + b], &mut r[8 + b]);
    }
}
