// What the tools print, made whole before anything is written, since a contract can say what bytes are and
// not what is written.
#![tactic(auto)]

pub mod decimals; // numbers

ghost use Rattle.std.specs.Prelude.{◌≡◌, [], ◌∷◌, ◌++◌, ◌+◌, ◌<◌, ◌≤◌, length};

pub use decimals::{decimal, numbers_line, signed_decimal};
use std::marker::Model;

// The longest text is a line on a fault: 114 bytes.
const ROOM: usize = 128;

// A text in memory of its own, since nothing here allocates. Contracts see its bytes.
#[derive(Clone, Copy)]
pub struct Text {
    bytes: [u8; ROOM],
    len: usize,
}

impl Model for Text {
    ghost use Rattle.std.specs.Prelude.{◌≡◌, ◌-◌, ◌≤◌, List, ℕ, length, take, drop, replicate};
    ghost use Rattle.text.specs.Room.{filled, filled-front, length-front};

    ghost Value = { List ℕ };

    ghost view = { λ t. take t.len t.bytes };

    // Zeros behind the text, so that its bytes alone give the fields back, as `Copy` asks for.
    ghost invariant = { λ t. (t.len ≤ 128) × (length t.bytes ≡ 128) × (drop t.len t.bytes ≡ replicate (128 - t.len) 0) };

    ghost inverse = { λ d. record { bytes = filled d; len = length d } };

    ghost inverse_ok = { λ t h i. record {
      bytes = filled-front t.len t.bytes h.0 h.1 h.2 i;
      len = length-front t.len t.bytes h.0 h.1 i;
    } };
}

impl Text {
    pub fn new() -> Text
        ensures { result ≡ [] }
    {
        Text {
            bytes: [0; ROOM],
            len: 0,
        }
    }

    pub fn of(bytes: &[u8]) -> Text
        requires { length bytes.now ≤ 128 }
        ensures { result ≡ bytes.now }
    {
        let mut text = Text::new();
        text.append(bytes);
        text
    }

    pub fn len(&self) -> usize
        ensures { (result ≡ length self.now) × (result ≤ 128) }
    {
        self.len
    }

    pub fn as_bytes(&self) -> &[u8]
        ensures { result.now ≡ self.now }
    {
        &self.bytes[..self.len]
    }

    pub fn push(&mut self, byte: u8)
        requires { length self.old < 128 }
        ensures { self.new ≡ self.old ++ (byte ∷ []) }
    {
        self.bytes[self.len] = byte;
        self.len += 1;
    }

    pub fn append(&mut self, bytes: &[u8])
        requires { length self.old + length bytes.now ≤ 128 }
        ensures { self.new ≡ self.old ++ bytes.now }
    {
        let end = self.len + bytes.len();
        self.bytes[self.len..end].copy_from_slice(bytes);
        self.len = end;
    }
}
