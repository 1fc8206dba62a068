ghost use Rattle.bf_id.specs.IdText.{octants_text};
ghost use Rattle.bf_id.specs.TextParts.{octant_digits};
ghost use Rattle.std.specs.Prelude.{◌≡◌, ◌+◌, ◌<◌, ◌≤◌, ◌∷◌, [], ◌++◌, All, length};
ghost use Rattle.std.specs.Str.{IsAscii};

use std::marker::Model;

/// The text of an id, held without memory of its own: ten digits, a full stop and four octants.
#[derive(Debug, Drop)]
pub struct IdText {
    buffer: [u8; 15],
    len: usize,
}

impl Model for IdText {
    ghost use Rattle.bf_id.specs.TextBuffer.{IsKept};
    ghost use Rattle.std.specs.Prelude.{ℕ, List, take};

    ghost Value = { List ℕ };

    ghost view = { λ t. take t.len t.buffer };

    ghost invariant = { λ t. IsKept (take t.len t.buffer) t.len };
}

impl IdText {
    pub fn bytes(&self) -> &[u8]
        ensures bytes { result.now ≡ self.now }
        ensures ascii { IsAscii result.now }
    {
        &self.buffer[..self.len]
    }

    pub(crate) fn new() -> IdText
        ensures { result ≡ [] }
    {
        IdText {
            buffer: [0; 15],
            len: 0,
        }
    }

    pub(crate) fn push(&mut self, byte: u8)
        requires room { length self.old < 15 }
        requires ascii { byte < 128 }
        ensures { self.new ≡ self.old ++ byte ∷ [] }
    {
        self.buffer[self.len] = byte;
        self.len += 1;
    }

    pub(crate) fn push_bytes(&mut self, bytes: &[u8])
        requires room { length self.old + length bytes.now ≤ 15 }
        requires ascii { IsAscii bytes.now }
        ensures { self.new ≡ self.old ++ bytes.now }
    {
        for byte in bytes {
            self.push(*byte);
        }
    }

    /// Nothing for a root; else a full stop, and a digit for each octant.
    pub(crate) fn push_octants(&mut self, octants: &[u8])
        requires room { length self.old + length octants.now < 15 }
        requires octal { All (λ octant. octant < 8) octants.now }
        ensures { self.new ≡ self.old ++ octants_text octants.now }
    {
        if !octants.is_empty() {
            self.push(b'.');
            self.push_digits(octants);
        }
    }

    fn push_digits(&mut self, octants: &[u8])
        requires room { length self.old + length octants.now ≤ 15 }
        requires octal { All (λ octant. octant < 8) octants.now }
        ensures { self.new ≡ self.old ++ octant_digits octants.now }
    {
        for octant in octants {
            self.push(b'0' + *octant);
        }
    }
}
