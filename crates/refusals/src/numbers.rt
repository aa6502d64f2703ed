// Tests by numbers that are no refusals', as those of a file's tags: 0 stands for none.
ghost use Rattle.std.specs.Prelude.{◌≡◌};
ghost use Rattle.refusals.specs.Tests.{refuse, first};

// One test: its number where its condition holds, else 0.
pub fn refuse(number: u64, condition: bool) -> u64
    ensures { result ≡ refuse number condition }
{
    if condition { number } else { 0 }
}

// The first number of the tests that is not 0, or 0 where all have passed.
pub fn first(tests: &[u64]) -> u64
    ensures { result ≡ first tests.now }
{
    for test in tests {
        if *test != 0 {
            return *test;
        }
    }
    0
}
