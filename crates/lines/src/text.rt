// Text put together in fixed memory: bytes, and how many of them are text so far. Contracts see the text as the list of its bytes.
ghost use Rattle.std.specs.Prelude.{◌≡◌, ◌++◌, ◌+◌, ◌≤◌, [], length, take};
ghost use Rattle.jobs.specs.Listing.{decimal, space};

use std::marker::Model;

// Text of at most N bytes.
#[derive(Drop)]
pub struct Text<const N: usize> {
    bytes: [u8; N],
    len: usize,
}

impl<const N: usize> Model for Text<N> {
    ghost use Rattle.std.specs.Prelude.{List, ℕ, ◌≤◌, take};

    ghost Value = { List ℕ };

    ghost view = { λ t. take t.len t.bytes };

    ghost invariant = { λ t. t.len ≤ N };
}

impl<const N: usize> Text<N> {
    pub fn new() -> Text<N>
        ensures { result ≡ [] }
    {
        Text {
            bytes: [0; N],
            len: 0,
        }
    }

    // The text that stands at the front of memory that the caller has.
    pub fn of(bytes: [u8; N], len: usize) -> Text<N>
        requires { len ≤ N }
        ensures { result ≡ take len bytes.entry }
    {
        Text { bytes, len }
    }

    pub fn clear(&mut self)
        ensures { self.new ≡ [] }
    {
        self.len = 0;
    }

    pub fn as_slice(&self) -> &[u8]
        ensures { result.now ≡ self.now }
    {
        &self.bytes[..self.len]
    }

    pub fn put(&mut self, bytes: &[u8])
        requires { length self.old + length bytes.now ≤ N }
        ensures { self.new ≡ self.old ++ bytes.now }
    {
        let end = self.len + bytes.len();
        let memory = &mut self.bytes[..];
        memory[self.len..end].copy_from_slice(bytes);
        self.len = end;
    }

    // A number has at most 20 digits.
    pub fn put_decimal(&mut self, n: usize)
        requires { length self.old + 20 ≤ N }
        ensures upper_bound { length self.new ≤ length self.old + 20 }
        ensures text { self.new ≡ self.old ++ decimal n }
    {
        let mut digits = [0u8; 20];
        let count = io::decimal(n as u64, &mut digits);
        self.put(&digits[..count]);
    }

    // A number of at most three digits and a space.
    pub fn put_number(&mut self, n: u8)
        requires { length self.old + 21 ≤ N }
        ensures upper_bound { length self.new ≤ length self.old + 4 }
        ensures text { self.new ≡ self.old ++ decimal n ++ space }
    {
        self.put_decimal(n as usize);
        self.put(b" ");
    }
}
