// What `motion` counts on the vectors of one frame.
#![tactic(auto)]

ghost use Rattle.std.specs.Prelude.{◌≡◌};
ghost use Rattle.report_tally.specs.Tallies.{still_tiles, farthest};

// The tiles that stay where they are.
pub fn still_tiles(vectors: &[i32]) -> u64
    ensures { result ≡ still_tiles vectors.now }
{
    let (tiles, _) = vectors.as_chunks::<2>();
    tiles
        .iter()
        .filter(|[down, right]| *down == 0 && *right == 0)
        .count() as u64
}

// The greatest |part|.
pub fn farthest(vectors: &[i32]) -> u64
    ensures { result ≡ farthest vectors.now }
{
    let mut far = 0;
    for part in vectors {
        far = far.max(part.unsigned_abs());
    }
    u64::from(far)
}
