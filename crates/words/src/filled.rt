// Bytes in an array and their count, since nothing allocates. Digits are put into the room behind them, which the kit's `ArrayVec` does not lend.
ghost use Rattle.std.specs.Prelude.{◌≡◌, List, ℕ, [], ◌++◌, ◌≤◌, length, take};
ghost use Rattle.words.specs.Numbers.{magnitude};
ghost use Rattle.words.specs.Hex.{hex_bytes, with_hex};

use crate::hex;
use std::fmt;
use std::marker::Model;

#[derive(Drop)]
pub struct Filled<const N: usize> {
    bytes: [u8; N],
    used: usize,
}

// Clauses see the bytes that were put.
impl<const N: usize> Model for Filled<N> {
    ghost Value = { List ℕ };

    ghost view = { λ f. take f.used f.bytes };

    ghost invariant = { λ f. f.used ≤ N };
}

impl<const N: usize> Filled<N> {
    pub fn new() -> Self
        ensures { result ≡ [] }
    {
        Filled {
            bytes: [0; N],
            used: 0,
        }
    }

    // The bytes that a word spells in hex, as many as there is room for.
    pub fn from_hex(word: &[u8]) -> Self
        ensures { result ≡ take N (hex_bytes (magnitude word.now)) }
    {
        let mut bytes = Filled::new();
        bytes.read_hex(word);
        bytes
    }

    pub fn used(&self) -> &[u8]
        ensures bytes { result.now ≡ self.now }
        ensures within { length result.now ≤ N }
    {
        &self.bytes[..self.used]
    }

    pub fn clear(&mut self)
        ensures { self.new ≡ [] }
    {
        self.used = 0;
    }

    // Puts bytes behind those in use, as many as there is room for.
    pub fn append(&mut self, bytes: &[u8])
        ensures { self.new ≡ take N (self.old ++ bytes.now) }
    {
        let count = (N - self.used).min(bytes.len());
        let end = self.used + count;
        let all = &mut self.bytes[..];
        all[self.used..end].copy_from_slice(&bytes[..count]);
        self.used = end;
    }

    // `append` of an array: where there is room, its bytes are stored at once.
    pub fn append_array<const M: usize>(&mut self, bytes: [u8; M])
        ensures { self.new ≡ take N (self.old ++ bytes.entry) }
    {
        if N - self.used < M {
            self.append(&bytes);
            return;
        }
        let behind = self.used + M;
        let room = &mut self.bytes[..];
        room[self.used..behind].copy_from_slice(&bytes);
        self.used = behind;
    }

    // Puts the digits of bytes behind those in use, where there is room for all of them.
    pub fn append_hex(&mut self, bytes: &[u8])
        ensures { self.new ≡ with_hex N self.old bytes.now }
    {
        self.used += hex::put(&mut self.bytes, self.used, bytes).unwrap_or(0);
    }

    // Puts the bytes that a word spells in hex, and no others.
    pub fn read_hex(&mut self, word: &[u8])
        ensures { self.new ≡ take N (hex_bytes (magnitude word.now)) }
    {
        self.used = hex::bytes(word, &mut self.bytes);
    }
}

impl<const N: usize> fmt::Write for Filled<N> {
    ghost write_str_gives = { λ before text behind. behind ≡ take N (before ++ text) };

    fn write_str(&mut self, s: &str) -> fmt::Result {
        self.append(s.as_bytes());
        Ok(())
    }
}
