// Refused inputs: the kinds of document 01's table and of the requests, their numbers, and the first test that refuses.
#![tactic(auto)]

pub mod numbers;

ghost use Rattle.std.specs.Prelude.{◌≡◌, map};
ghost use Rattle.refusals.specs.Refused.{refusal_number, answer_of};
ghost use Rattle.refusals.specs.Tests.{refuse, first};

// Why an input is refused: each by its number.
#[derive(Clone, Copy, Debug, PartialEq, Eq)]
pub enum Refusal {
    Size = 1,
    Count = 2,
    Reference = 3,
    SampleLength = 4,
    VectorLength = 5,
    OutputLength = 6,
    WorkLength = 7,
    Noise = 8,
    NoiseLimit = 9,
    Strength = 10,
    SampleValue = 11,
    VectorPart = 12,
    FirstLine = 13,
    ValueLine = 14,
    FileEnd = 15,
    ByteLength = 16,
    PgmForm = 17,
    BlackLevel = 18,
    DngStructure = 19,
    DngTag = 20,
    DngValue = 21,
    Side = 22,
    RowLength = 23,
    SpatialStrength = 24,
    FilteredSide = 25,
    NoiseRange = 26,
    Part = 27,
}

impl Refusal {
    // The number by which a caller knows it.
    pub fn number(self) -> u64
        ensures { result ≡ refusal_number self }
    {
        self as u64
    }
}

// What a caller is answered: the refusal's number, or 0.
pub fn answer(tests: Result<(), Refusal>) -> u64
    ensures { result ≡ answer_of tests }
{
    match tests {
        Ok(()) => 0,
        Err(refusal) => refusal.number(),
    }
}

// One test: refused where its condition holds.
pub fn refuse(refusal: Refusal, condition: bool) -> Result<(), Refusal>
    ensures { answer_of result ≡ refuse (refusal_number refusal) condition }
{
    if condition { Err(refusal) } else { Ok(()) }
}

// The first of the tests that refuses.
pub fn first(tests: &[Result<(), Refusal>]) -> Result<(), Refusal>
    ensures { answer_of result ≡ first (map answer_of tests.now) }
{
    for test in tests {
        (*test)?;
    }
    Ok(())
}
