// Decimal numbers of at most four digits.
ghost use Rattle.std.specs.Prelude.{◌≡◌, ◌≤◌};
ghost use Rattle.algebra.specs.Prelude.{length, drop};
ghost use Rattle.printing.specs.Decimal.{decimal};
ghost use Rattle.file_pgm.specs.Header.Header.{leading};

// How many digits a number has.
pub fn digits(n: usize) -> usize
    requires { n ≤ 9999 }
    ensures { (result ≡ length (decimal n)) × (result ≤ 4) }
{
    if n < 10 {
        return 1;
    }
    if n < 100 {
        return 2;
    }
    if n < 1000 {
        return 3;
    }
    4
}

// The number that the digits from a place on write, the first four of them.
pub fn leading(bytes: &[u8], at: usize) -> usize
    ensures { (result ≡ leading 4 0 (drop at bytes.now)) × (result ≤ 9999) }
{
    let mut value: usize = 0;
    let mut i = at;
    for _ in 0..4usize {
        if bytes.len() <= i {
            return value;
        }
        let byte = bytes[i];
        if byte < b'0' || b'9' < byte {
            return value;
        }
        value = value * 10 + usize::from(byte - b'0');
        i += 1;
    }
    value
}
