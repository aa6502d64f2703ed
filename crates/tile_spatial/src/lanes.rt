// The noise numbers of two planes side by side.
ghost use Rattle.std.specs.Prelude.{◌≡◌, ◌/◌, ◌%◌, ◌<◌};
ghost use Rattle.tile_spatial.specs.Prelude.{[], get_or, tab, grid, cell, either};

// That of lane l.
fn lane(first: &[u64; 9], second: &[u64; 9], l: usize) -> u64
    requires { l < 18 }
    ensures { result ≡ get_or (either first.now second.now (l % 2)) (l / 2) 0 }
{
    if l % 2 == 0 {
        return first[l / 2];
    }
    second[l / 2]
}

// Those of a row.
fn lane_row(first: &[u64; 9], second: &[u64; 9]) -> [u64; 18]
    ensures { result ≡ tab 18 (λ l. get_or (either first.now second.now (l % 2)) (l / 2) 0) }
{
    std::array::from_fn(|l| lane(first, second, l))
}

// All of them.
pub fn lanes(first: &[[u64; 9]; 9], second: &[[u64; 9]; 9]) -> [[u64; 18]; 9]
    ensures { result ≡ grid 9 18 (λ u l. cell 0 (either first.now second.now (l % 2)) u (l / 2)) }
{
    std::array::from_fn(
        |u: usize| -> [u64; 18]
            requires { u < 9 }
            ensures { result ≡ tab 18 (λ l. get_or (either (get_or first.entry.now u []) (get_or second.entry.now u []) (l % 2)) (l / 2) 0) }
        { lane_row(&first[u], &second[u]) },
    )
}
