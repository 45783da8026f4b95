//! Byte strings that a value owns.
ghost use Rattle.std.specs.Prelude.{◌≡◌, ◌≤◌, ◌+◌, [], ◌++◌, length, IfOk};

use crate::OutOfMemory;
use std::alloc::Global;
use std::marker::Model;

/// A list of bytes on the heap.
///
/// A contract sees its spare room too: how many bytes it takes without asking for memory.
#[derive(Debug, Drop)]
pub struct Bytes {
    bytes: Vec<u8>,
}

impl Model for Bytes {
    ghost use Rattle.std.specs.Prelude.{◌-◌};
    ghost use Rattle.std.specs.Vec.{vec_len, vec_capacity};
    ghost use Rattle.osal_base.specs.Text.{Text};

    ghost Value = { Text };

    ghost view = { λ a. record { bytes = a.bytes.items; spare = vec_capacity a.bytes - vec_len a.bytes } };

    ghost invariant = { λ a. Unit {0} };
}

impl Bytes {
    /// No bytes, and no spare room. It takes no memory.
    pub fn new(alloc: Global) -> Bytes
        ensures { result.bytes ≡ [] }
    {
        Bytes {
            bytes: Vec::new(alloc),
        }
    }

    /// The bytes of a vector, which are not copied.
    pub fn from_vec(bytes: Vec<u8>) -> Bytes
        ensures { result.bytes ≡ bytes.items }
    {
        Bytes { bytes }
    }

    /// A copy of the bytes.
    pub fn copy(alloc: Global, bytes: &[u8]) -> Result<Bytes, OutOfMemory>
        ensures { IfOk result (λ copied. copied.bytes ≡ bytes.now) }
    {
        Ok(Bytes {
            bytes: Vec::from_slice(alloc, bytes)?,
        })
    }

    /// No bytes, with spare room for at least `n`.
    pub fn with_room(alloc: Global, n: u32) -> Result<Bytes, OutOfMemory>
        ensures empty { IfOk result (λ made. made.bytes ≡ []) }
        ensures room { IfOk result (λ made. n ≤ made.spare) }
    {
        Ok(Bytes {
            bytes: Vec::with_capacity(alloc, n as usize)?,
        })
    }

    /// The bytes.
    pub fn as_slice(&self) -> &[u8]
        ensures { result.now ≡ self.now.bytes }
    {
        self.bytes.as_slice()
    }

    /// Appends the bytes to those that are there. It takes no memory.
    pub fn append(&mut self, bytes: &[u8])
        requires { length bytes.now ≤ self.old.spare }
        ensures bytes { self.new.bytes ≡ self.old.bytes ++ bytes.now }
        ensures spare { self.old.spare ≤ self.new.spare + length bytes.now }
    {
        let appended = self.bytes.extend_from_slice(bytes);
        appended.unwrap();
    }
}
