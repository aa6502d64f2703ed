// A column of a table, as a line, and a line in its place, over any element and any number of rows and of lanes.
ghost use Rattle.std.specs.Prelude.{◌≡◌, ◌<◌};
ghost use Rattle.tile_spectrum.specs.Prelude.{cond, eqb, get_or, tab};
ghost use Rattle.sequences.specs.Grid.{grid, cell};

// Number l of a row.
fn lane<T: Copy, const LANES: usize>(row: &[T; LANES], l: usize) -> T
    requires { l < LANES }
    ensures { (o : T) → result ≡ get_or row.now l o }
{
    row[l]
}

// Number l of a row is replaced by v.
fn set_lane<T: Copy, const LANES: usize>(row: &mut [T; LANES], l: usize, v: T)
    requires { l < LANES }
    ensures { (o : T) → row.new ≡ tab LANES (λ m. cond (eqb m l) v (get_or row.old m o)) }
{
    row[l] = v;
}

// Column l of a table.
pub fn column<T: Copy, const LANES: usize, const ROWS: usize>(
    t: &[[T; LANES]; ROWS],
    l: usize,
) -> [T; ROWS]
    requires { l < LANES }
    ensures { (o : T) → result ≡ tab ROWS (λ y. cell o t.now y l) }
{
    std::array::from_fn(
        |y: usize| -> T
            requires { (y < ROWS) × (l < LANES) }
            ensures { (o : T) → result ≡ cell o t.entry.now y l }
        { lane(&t[y], l) },
    )
}

// Column l of a table is replaced by z.
pub fn set_column<T: Copy, const LANES: usize, const ROWS: usize>(
    t: &mut [[T; LANES]; ROWS],
    l: usize,
    z: &[T; ROWS],
)
    requires { l < LANES }
    ensures { (o : T) → t.new ≡ grid ROWS LANES (λ k m. cond (eqb m l) (get_or z.now k o) (cell o t.old k m)) }
{
    for k in 0..ROWS {
        set_lane(&mut t[k], l, z[k]);
    }
}
