//! The bytes of a header or a record that isn't whole.
ghost use Rattle.std.specs.Prelude.{◌≡◌, ◌<◌, ◌+◌, ◌++◌, ◌∷◌, [], length};

use std::marker::Model;

/// How many bytes a record has behind its gate.
pub const BODY_AND_DIGEST: usize = 128;

/// The bytes that are held, fewer than a record has. A contract sees them as a list.
#[derive(Drop)]
pub struct Held {
    bytes: [u8; BODY_AND_DIGEST],
    count: usize,
}

impl Model for Held {
    ghost use Rattle.std.specs.Prelude.{◌<◌, ℕ, List, take};

    ghost Value = { List ℕ };

    ghost view = { λ h. take h.count h.bytes };

    ghost invariant = { λ h. h.count < 128 };
}

impl Held {
    /// Holds no bytes.
    pub fn new() -> Held
        ensures { result ≡ [] }
    {
        Held {
            bytes: [0; BODY_AND_DIGEST],
            count: 0,
        }
    }

    /// How many bytes are held.
    pub fn len(&self) -> usize
        ensures count { result ≡ length self.now }
        ensures few { result < 128 }
    {
        self.count
    }

    /// The bytes that are held.
    pub fn bytes(&self) -> &[u8]
        ensures { result.now ≡ self.now }
    {
        &self.bytes[..self.count]
    }

    /// Forgets all bytes.
    pub fn clear(&mut self)
        ensures { self.new ≡ [] }
    {
        self.count = 0;
    }

    /// Adds a byte, where there is room.
    pub fn push(&mut self, byte: u8)
        ensures { length self.old < 127 → self.new ≡ self.old ++ byte ∷ [] }
    {
        if self.count < BODY_AND_DIGEST - 1 {
            self.bytes[self.count] = byte;
            self.count += 1;
        }
    }

    /// Adds bytes, for which there must be room.
    pub fn extend(&mut self, piece: &[u8])
        requires { length self.old + length piece.now < 128 }
        ensures { self.new ≡ self.old ++ piece.now }
    {
        // A copy of one byte is quicker than a call that copies some.
        if piece.len() == 1 {
            self.push(piece[0]);
            return;
        }
        let end = self.count + piece.len();
        self.bytes[self.count..end].copy_from_slice(piece);
        self.count = end;
    }

    /// The bytes of a record: those that are held, and its last one.
    pub fn with(&self, last: u8) -> [u8; BODY_AND_DIGEST]
        requires { length self.now ≡ 127 }
        ensures { result ≡ self.now ++ last ∷ [] }
    {
        let mut record = self.bytes;
        record[127] = last;
        record
    }
}
