//! The strings and payloads that stand in lines.
ghost use Rattle.std.specs.Prelude.{◌≡◌, IfOk};

use osal_base::{Bytes, OutOfMemory};
use std::alloc::Global;
use std::marker::Model;

/// A string or a payload that stands in an application.
#[derive(Drop)]
pub struct Literal {
    bytes: Bytes,
}

impl Model for Literal {
    ghost use Rattle.std.specs.Prelude.{List, ℕ};

    ghost Value = { List ℕ };

    ghost view = { λ a. a.bytes.bytes };

    ghost invariant = { λ a. Unit {0} };
}

impl Literal {
    /// The literal of these bytes.
    pub fn new(bytes: Bytes) -> Literal
        ensures { result ≡ bytes.bytes }
    {
        Literal { bytes }
    }

    /// Its bytes.
    pub fn as_slice(&self) -> &[u8]
        ensures { result.now ≡ self.now }
    {
        self.bytes.as_slice()
    }

    /// A copy of its bytes.
    pub(crate) fn copied(&self, alloc: Global) -> Result<Bytes, OutOfMemory>
        ensures { IfOk result (λ copied. copied.bytes ≡ self.now) }
    {
        Bytes::copy(alloc, self.bytes.as_slice())
    }
}
