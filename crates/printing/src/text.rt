// A text that grows, in memory of its own.
ghost use Rattle.std.specs.Prelude.{◌≡◌, ◌∷◌, ◌++◌, ◌+◌, ◌≤◌, ◌<◌};
ghost use Rattle.printing.specs.Prelude.{List, [], ℕ, length, take};
ghost use Rattle.printing.specs.Decimal.{decimal};

use crate::pieces::put_number;
use std::marker::Model;

// The first `end` bytes are the text so far.
#[derive(Drop)]
pub struct Text<const ROOM: usize> {
    bytes: [u8; ROOM],
    end: usize,
}

impl<const ROOM: usize> Model for Text<ROOM> {
    ghost Value = { List ℕ };

    ghost view = { λ t. take t.end t.bytes };

    ghost invariant = { λ t. t.end ≤ ROOM };
}

impl<const ROOM: usize> Text<ROOM> {
    pub fn new() -> Self
        ensures { result ≡ [] }
    {
        Text {
            bytes: [0; ROOM],
            end: 0,
        }
    }

    pub fn clear(&mut self)
        ensures { self.new ≡ [] }
    {
        self.end = 0;
    }

    pub fn as_bytes(&self) -> &[u8]
        ensures text { result.now ≡ self.now }
        ensures room { length result.now ≤ ROOM }
    {
        &self.bytes[..self.end]
    }

    pub fn put_byte(&mut self, byte: u8)
        requires { length self.old < ROOM }
        ensures { self.new ≡ self.old ++ byte ∷ [] }
    {
        self.bytes[self.end] = byte;
        self.end += 1;
    }

    pub fn put_bytes(&mut self, bytes: &[u8])
        requires { length self.old + length bytes.now ≤ ROOM }
        ensures { self.new ≡ self.old ++ bytes.now }
    {
        let end = self.end + bytes.len();
        let room = &mut self.bytes[..];
        room[self.end..end].copy_from_slice(bytes);
        self.end = end;
    }

    // The decimal digits of n.
    pub fn put_number(&mut self, n: u64)
        requires { length self.old + length (decimal n) ≤ ROOM }
        ensures { self.new ≡ self.old ++ decimal n }
    {
        let mut digits = [0; 20];
        let count = put_number(&mut digits, 0, n);
        self.put_bytes(&digits[..count]);
    }
}
