//! The names of objects.
ghost use Rattle.std.specs.Prelude.{◌≡◌, ◌≤◌, ◌<◌, length, IsTrue, ◌↔◌, ◌==◌, MatchResult, None, Some};
ghost use Rattle.std.specs.List.{list_any};
ghost use Rattle.osal_base.specs.Name.{IsName, name_fault};

use arrayvec::ArrayVec;
use std::marker::Model;

/// The most bytes of a name (`OS_MAX_API_NAME` less its closing zero).
pub const NAME_LIMIT: usize = 19;

/// Why some bytes are no name, tried in this order.
#[derive(Clone, Copy, Debug, PartialEq, Eq)]
pub enum NameFault {
    /// There are no bytes.
    Empty,
    /// There are more than 19 bytes.
    TooLong,
    /// A byte is zero.
    HasZero,
}

/// A name of 1 to 19 bytes, none of them zero.
#[derive(Debug, Drop)]
pub struct Name {
    bytes: ArrayVec<u8, 19>,
}

impl Model for Name {
    ghost use Rattle.std.specs.Prelude.{List, ℕ};
    ghost use Rattle.osal_base.specs.Name.{IsName};

    ghost Value = { List ℕ };

    ghost view = { λ a. a.bytes.items };

    ghost invariant = { λ a. IsName a.bytes.items };
}

impl Name {
    /// A name of these bytes, or the first reason why they are none.
    pub fn new(bytes: &[u8]) -> Result<Name, NameFault>
        ensures { MatchResult result
            (λ name. (name ≡ bytes.now) × (name_fault bytes.now ≡ None))
            (λ fault. name_fault bytes.now ≡ Some fault) }
    {
        if bytes.is_empty() {
            return Err(NameFault::Empty);
        }
        if bytes.len() > NAME_LIMIT {
            return Err(NameFault::TooLong);
        }
        if has_zero(bytes) {
            return Err(NameFault::HasZero);
        }
        Ok(Name {
            bytes: array_of(bytes),
        })
    }

    /// The bytes of the name.
    pub fn as_slice(&self) -> &[u8]
        ensures value { result.now ≡ self.now }
        ensures name { IsName self.now }
    {
        let _ = &self.bytes;
        self.bytes.as_slice()
    }

    /// The same name again. It takes no memory.
    pub fn copied(&self) -> Name
        ensures { result ≡ self.now }
    {
        Name {
            bytes: array_of(self.bytes.as_slice()),
        }
    }

    /// Whether two names have the same bytes.
    pub fn is_same(&self, other: &Name) -> bool
        ensures { IsTrue result ↔ (self.now ≡ other.now) }
    {
        self.bytes.as_slice() == other.bytes.as_slice()
    }
}

fn has_zero(bytes: &[u8]) -> bool
    ensures { result ≡ list_any (λ b. b == 0) bytes.now }
{
    bytes.iter().any(|b| *b == 0)
}

fn array_of(bytes: &[u8]) -> ArrayVec<u8, 19>
    requires { length bytes.now ≤ 19 }
    ensures { result.items ≡ bytes.now }
{
    let mut array = ArrayVec::new();
    let copied = array.try_extend_from_slice(bytes);
    copied.unwrap();
    array
}
