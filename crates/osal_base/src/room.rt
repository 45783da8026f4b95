//! The buffer in which a call leaves the bytes of its reply.
ghost use Rattle.std.specs.Prelude.{◌≡◌, ◌≤◌, ◌+◌, [], ◌++◌, length};

use arrayvec::ArrayVec;
use std::marker::Model;

/// At most 1,024 bytes, which take no memory.
#[derive(Debug, Drop)]
pub struct Room {
    bytes: ArrayVec<u8, 1024>,
}

impl Model for Room {
    ghost use Rattle.std.specs.Prelude.{◌≤◌, List, ℕ, length};

    ghost Value = { List ℕ };

    ghost view = { λ a. a.bytes.items };

    ghost invariant = { λ a. length a.bytes.items ≤ 1024 };
}

impl Room {
    /// The most bytes that a room holds.
    pub const LIMIT: usize = 1024;

    /// An empty room.
    pub fn new() -> Room
        ensures { result ≡ [] }
    {
        Room {
            bytes: ArrayVec::new(),
        }
    }

    /// The bytes in the room.
    pub fn as_slice(&self) -> &[u8]
        ensures value { result.now ≡ self.now }
        ensures bound { length self.now ≤ 1024 }
    {
        self.bytes.as_slice()
    }

    /// Takes all bytes out.
    pub fn clear(&mut self)
        ensures { self.new ≡ [] }
    {
        self.bytes.clear();
    }

    /// Appends the bytes to those that are there.
    pub fn append(&mut self, bytes: &[u8])
        requires { length self.old + length bytes.now ≤ 1024 }
        ensures { self.new ≡ self.old ++ bytes.now }
    {
        let appended = self.bytes.try_extend_from_slice(bytes);
        appended.unwrap();
    }
}
