//! A line, written from left to right.
ghost use Rattle.std.specs.Prelude.{◌≡◌, ◌≤◌, ◌<◌, ◌+◌, [], ◌++◌, length, decimal, take};
ghost use Rattle.texts.specs.Numerals.{hexadecimal};

use crate::copies::{copy, copy_ends};
use crate::numerals::write_word;
use std::marker::Model;

/// What is written of a line, in the value itself: no more than `CAP` bytes.
#[derive(Drop)]
pub struct Line<const CAP: usize> {
    bytes: [u8; CAP],
    len: usize,
}

impl<const CAP: usize> Model for Line<CAP> {
    ghost use Rattle.std.specs.Prelude.{ℕ, ◌≤◌, List, take};

    ghost Value = { List ℕ };

    ghost view = { λ l. take l.len l.bytes };

    ghost invariant = { λ l. l.len ≤ CAP };
}

impl<const CAP: usize> Line<CAP> {
    /// A line with nothing on it yet.
    #[inline]
    pub fn new() -> Self
        ensures { result ≡ [] }
    {
        Line {
            bytes: [0; CAP],
            len: 0,
        }
    }

    /// What was written.
    #[inline]
    pub fn as_bytes(&self) -> &[u8]
        ensures { result.now ≡ self.now }
    {
        let bytes = &self.bytes[..];
        &bytes[..self.len]
    }

    /// Leaves nothing on the line.
    #[inline(always)]
    pub fn clear(&mut self)
        ensures { self.new ≡ [] }
    {
        self.len = 0;
    }

    /// Writes a text, which has room.
    #[inline(always)]
    pub fn put(&mut self, text: &str)
        requires { length self.old + length text.now ≤ CAP }
        ensures { self.new ≡ self.old ++ text.now }
    {
        self.put_bytes(text.as_bytes());
    }

    /// Writes the eight digits of a word, which have room.
    #[inline(always)]
    pub fn put_word(&mut self, n: u32)
        requires { length self.old + 8 ≤ CAP }
        ensures text { self.new ≡ self.old ++ hexadecimal n }
        ensures longer { length self.new ≡ length self.old + 8 }
    {
        let end = self.len + 8;
        let bytes = &mut self.bytes[..];
        write_word(n, &mut bytes[self.len..end]);
        self.len = end;
    }

    /// Writes a number of one digit, in base 10.
    #[inline(always)]
    #[tactic(auto, using(std::proofs::lemmas::Fmt::decimal_digit))]
    pub fn put_digit(&mut self, n: u32)
        requires digit { n < 10 }
        requires room { length self.old < CAP }
        ensures text { self.new ≡ self.old ++ decimal n }
        ensures longer { length self.new ≡ length self.old + 1 }
    {
        self.put_bytes(&[b'0' + n as u8]);
    }

    /// Writes a number of one digit or two, in base 10.
    #[inline(always)]
    pub fn put_small(&mut self, n: u32)
        requires small { n < 100 }
        requires room { length self.old + 2 ≤ CAP }
        ensures text { self.new ≡ self.old ++ decimal n }
        ensures longer { length self.new ≤ length self.old + 2 }
    {
        if n < 10 {
            self.put_digit(n);
        } else {
            self.put_digit(n / 10);
            self.put_digit(n % 10);
        }
    }

    /// Writes a name of two to four bytes, which has room.
    #[inline(always)]
    pub fn put_name(&mut self, name: &str)
        requires long { 2 ≤ length name.now }
        requires short { length name.now ≤ 4 }
        requires room { length self.old + length name.now ≤ CAP }
        ensures { self.new ≡ self.old ++ name.now }
    {
        let end = self.len + name.len();
        let bytes = &mut self.bytes[..];
        copy_ends::<2>(name.as_bytes(), &mut bytes[self.len..end]);
        self.len = end;
    }

    /// Writes the first so many bytes of a block that has room as a whole: it is copied whole, without a call.
    #[inline(always)]
    pub fn put_front<const N: usize>(&mut self, block: &[u8; N], len: usize)
        requires inside { len ≤ N }
        requires room { length self.old + N ≤ CAP }
        ensures { self.new ≡ self.old ++ take len block.now }
    {
        let end = self.len + N;
        let bytes = &mut self.bytes[..];
        bytes[self.len..end].copy_from_slice(block);
        self.len += len;
    }

    /// Writes bytes, which have room.
    #[inline(always)]
    pub fn put_bytes(&mut self, text: &[u8])
        requires { length self.old + length text.now ≤ CAP }
        ensures { self.new ≡ self.old ++ text.now }
    {
        let end = self.len + text.len();
        let bytes = &mut self.bytes[..];
        copy(text, &mut bytes[self.len..end]);
        self.len = end;
    }
}
