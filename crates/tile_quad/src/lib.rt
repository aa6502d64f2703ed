// Quads of two tiles side by side in double: what a quad of G is made of, and how one is read and stored. With h half the side, quad (u, l) is rows u and h + u of
// lanes l and side + l.
#![tactic(auto)]

ghost use Rattle.std.specs.Prelude.{◌≡◌, ◌/◌, ◌<◌};
ghost use Rattle.tile_quad.specs.Prelude.{nan, cell, PairedOf};
ghost use Rattle.tile_quad.specs.Lanes.{IsEvenPair, quad_at, WithQuad};

// Quad (u, l).
pub fn quad_at<const LANES: usize, const SIDE: usize>(
    b: &[[f64; LANES]; SIDE],
    u: usize,
    l: usize,
) -> [f64; 4]
    requires { (IsEvenPair LANES SIDE) × (u < SIDE / 2) × (l < SIDE) }
    ensures { result ≡ quad_at SIDE (cell nan b.now) u l }
{
    let h = SIDE / 2;
    [b[u][l], b[h + u][l], b[u][SIDE + l], b[h + u][SIDE + l]]
}

// Stores quad (u, l).
pub fn set_quad<const LANES: usize, const SIDE: usize>(
    b: &mut [[f64; LANES]; SIDE],
    u: usize,
    l: usize,
    q: [f64; 4],
)
    requires { record { pair : IsEvenPair LANES SIDE; u_below : u < SIDE / 2; l_below : l < SIDE; paired : PairedOf SIDE nan b.old } }
    ensures { WithQuad SIDE u l q b.old b.new }
{
    let h = SIDE / 2;
    b[u][l] = q[0];
    b[h + u][l] = q[1];
    b[u][SIDE + l] = q[2];
    b[h + u][SIDE + l] = q[3];
}
