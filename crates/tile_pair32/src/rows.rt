// The second pass of the two-way transform, along the rows of a pair that the pass down the columns leaves. Its kernel is called from two places, so that it is
// compiled by itself.
ghost use Rattle.std.specs.Prelude.{◌≡◌};
ghost use Rattle.tile_pair32.specs.Prelude.{pos, side32, cell, halfcomplex_of, long_line_most, TileMost, plane_in, side_by_side, LongPaired, long_doubles, nan};

// r: the transforms of each row's two lines.
pub fn rows(t: &[[i32; 64]; 32], r: &mut [[f64; 64]; 32])
    requires { (TileMost long_line_most t.now) × (LongPaired nan r.old) }
    ensures { r.new ≡ long_doubles (side_by_side (λ p b. halfcomplex_of side32 (plane_in (cell (pos 0) t.now) p b))) }
{
    for b in 0..16 {
        tile_lines32_double::halfcomplex(&t[b], &mut r[b]);
        tile_lines32_double::halfcomplex(&t[16 + b], &mut r[16 + b]);
    }
}
