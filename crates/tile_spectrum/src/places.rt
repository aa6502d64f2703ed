// A table from one or from two others, place by place, over any elements and any number of rows and of lanes. What is asked of f, and what is told of it, may
// suppose that a row has its length.
ghost use Rattle.std.specs.Prelude.{◌≡◌, ℕ, length, ◌*◌, ◌/◌, ◌%◌, ◌<◌};
ghost use Rattle.tile_spectrum.specs.Prelude.{[], cond, eqb, get_or, tab};
ghost use Rattle.sequences.specs.Grid.{grid, cell};

// What f makes of each number of a row.
pub fn mapped_row<A: Copy, C, F: Fn(A) -> C, const LANES: usize>(
    a: &[A; LANES],
    f: &F,
) -> [C; LANES]
    requires { (l : ℕ) (p : A) → length a.now ≡ LANES → l < LANES → F.pre f.now (get_or a.now l p) }
    ensures { (h : ℕ → C) → ((l : ℕ) (p : A) (r : C) → length a.now ≡ LANES → l < LANES → F.post f.now (get_or a.now l p) r → r ≡ h l) → result ≡ tab LANES h }
{
    std::array::from_fn(
        |l: usize| -> C
            requires { (l < LANES) × ((p : A) → F.pre f.now (get_or a.now l p)) }
            ensures { (p : A) × F.post f.entry.now (get_or a.entry.now l p) result }
        { f(a[l]) },
    )
}

// What f makes of each two numbers of two rows.
pub fn zipped_row<A: Copy, B: Copy, C, F: Fn(A, B) -> C, const LANES: usize>(
    a: &[A; LANES],
    b: &[B; LANES],
    f: &F,
) -> [C; LANES]
    requires { (l : ℕ) (p : A) (q : B) → length a.now ≡ LANES → length b.now ≡ LANES → l < LANES → F.pre f.now (get_or a.now l p) (get_or b.now l q) }
    ensures { (h : ℕ → C) → ((l : ℕ) (p : A) (q : B) (r : C) → length a.now ≡ LANES → length b.now ≡ LANES → l < LANES → F.post f.now (get_or a.now l p) (get_or b.now l q) r → r ≡ h l) → result ≡ tab LANES h }
{
    std::array::from_fn(
        |l: usize| -> C
            requires { (l < LANES) × ((p : A) (q : B) → F.pre f.now (get_or a.now l p) (get_or b.now l q)) }
            ensures { (p : A) × (q : B) × F.post f.entry.now (get_or a.entry.now l p) (get_or b.entry.now l q) result }
        { f(a[l], b[l]) },
    )
}

// What f makes of each number of a table.
pub fn mapped<A: Copy, C, F: Fn(A) -> C, const LANES: usize, const ROWS: usize>(
    a: &[[A; LANES]; ROWS],
    f: F,
) -> [[C; LANES]; ROWS]
    requires { (y l : ℕ) (p : A) → y < ROWS → length (get_or a.now y []) ≡ LANES → l < LANES → F.pre f (cell p a.now y l) }
    ensures { (h : ℕ → ℕ → C) → ((y l : ℕ) (p : A) (r : C) → y < ROWS → length (get_or a.now y []) ≡ LANES → l < LANES → F.post f (cell p a.now y l) r → r ≡ h y l) → result ≡ grid ROWS LANES h }
{
    std::array::from_fn(
        |y: usize| -> [C; LANES]
            requires { (y < ROWS) × ((l : ℕ) (p : A) → length (get_or a.now y []) ≡ LANES → l < LANES → F.pre f (get_or (get_or a.now y []) l p)) }
            ensures { (h : ℕ → C) → ((l : ℕ) (p : A) (r : C) → length (get_or a.entry.now y []) ≡ LANES → l < LANES → F.post f (get_or (get_or a.entry.now y []) l p) r → r ≡ h l) → result ≡ tab LANES h }
        { mapped_row(&a[y], &f) },
    )
}

// What f makes of each two numbers of two tables.
pub fn zipped<A: Copy, B: Copy, C, F: Fn(A, B) -> C, const LANES: usize, const ROWS: usize>(
    a: &[[A; LANES]; ROWS],
    b: &[[B; LANES]; ROWS],
    f: F,
) -> [[C; LANES]; ROWS]
    requires { (y l : ℕ) (p : A) (q : B) → y < ROWS → length (get_or a.now y []) ≡ LANES → length (get_or b.now y []) ≡ LANES → l < LANES → F.pre f (cell p a.now y l) (cell q b.now y l) }
    ensures { (h : ℕ → ℕ → C) → ((y l : ℕ) (p : A) (q : B) (r : C) → y < ROWS → length (get_or a.now y []) ≡ LANES → length (get_or b.now y []) ≡ LANES → l < LANES → F.post f (cell p a.now y l) (cell q b.now y l) r → r ≡ h y l) → result ≡ grid ROWS LANES h }
{
    std::array::from_fn(
        |y: usize| -> [C; LANES]
            requires { (y < ROWS) × ((l : ℕ) (p : A) (q : B) → length (get_or a.now y []) ≡ LANES → length (get_or b.now y []) ≡ LANES → l < LANES → F.pre f (get_or (get_or a.now y []) l p) (get_or (get_or b.now y []) l q)) }
            ensures { (h : ℕ → C) → ((l : ℕ) (p : A) (q : B) (r : C) → length (get_or a.entry.now y []) ≡ LANES → length (get_or b.entry.now y []) ≡ LANES → l < LANES → F.post f (get_or (get_or a.entry.now y []) l p) (get_or (get_or b.entry.now y []) l q) r → r ≡ h l) → result ≡ tab LANES h }
        { zipped_row(&a[y], &b[y], &f) },
    )
}

// The numbers of two lines by turns.
pub fn interleaved<T: Copy, const HALF: usize, const LEN: usize>(
    e: &[T; HALF],
    o: &[T; HALF],
) -> [T; LEN]
    requires { LEN ≡ 2 * HALF }
    ensures { (z : T) → result ≡ tab LEN (λ l. cond (eqb (l % 2) 0) (get_or e.now (l / 2) z) (get_or o.now (l / 2) z)) }
{
    std::array::from_fn(
        |l: usize| -> T
            requires { l < 2 * HALF }
            ensures { (z : T) → result ≡ cond (eqb (l % 2) 0) (get_or e.entry.now (l / 2) z) (get_or o.entry.now (l / 2) z) }
        { if l % 2 == 0 { e[l / 2] } else { o[l / 2] } },
    )
}
