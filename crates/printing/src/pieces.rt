// Bytes and numbers, put into a lent buffer from a place on. Each function answers the place after what it put.
ghost use Rattle.std.specs.Prelude.{◌∷◌, ◌+◌, ◌<◌, ◌≤◌};
ghost use Rattle.printing.specs.Prelude.{[], length};
ghost use Rattle.printing.specs.Decimal.{decimal};
ghost use Rattle.printing.specs.Put.{Printed};

// One byte.
pub fn put_byte(text: &mut [u8], at: usize, byte: u8) -> usize
    requires { at < length text.old }
    ensures { Printed text.old at (byte ∷ []) text.new result }
{
    text[at] = byte;
    at + 1
}

// A text.
#[tactic(auto, unfolding(crate::specs::Put::put))]
pub fn put_bytes(text: &mut [u8], at: usize, bytes: &[u8]) -> usize
    requires { at + length bytes.now ≤ length text.old }
    ensures { Printed text.old at bytes.now text.new result }
{
    let end = at + bytes.len();
    text[at..end].copy_from_slice(bytes);
    end
}

// The decimal digits of n, at most 20.
pub fn put_number(text: &mut [u8], at: usize, n: u64) -> usize
    requires { at + 20 ≤ length text.old }
    ensures { (Printed text.old at (decimal n) text.new result) × (result ≤ at + 20) }
{
    if n < 10 {
        return put_byte(text, at, b'0' + n as u8);
    }
    let next = put_number(&mut *text, at, n / 10);
    put_byte(text, next, b'0' + (n % 10) as u8)
}
