//! The connections that wait to be accepted at a socket.
ghost use Rattle.std.specs.Prelude.{◌≡◌, ◌<◌, ◌==◌, ◌++◌, ◌∷◌, [], length, nat_lt};
ghost use Rattle.osal_socket.specs.Connecting.{pending_limit};

use arrayvec::ArrayVec;
use std::marker::Model;

/// At most 8 numbers of connections, the oldest first, which take no memory.
#[derive(Drop)]
pub(crate) struct Pending {
    numbers: ArrayVec<usize, 8>,
}

impl Model for Pending {
    ghost use Rattle.std.specs.Prelude.{List, ℕ};

    ghost Value = { List ℕ };

    ghost view = { λ a. a.numbers.items };

    ghost invariant = { λ a. Unit {0} };
}

impl Pending {
    /// No connection.
    pub(crate) fn new() -> Pending
        ensures { result ≡ [] }
    {
        Pending {
            numbers: ArrayVec::new(),
        }
    }

    /// Whether none waits.
    pub(crate) fn is_empty(&self) -> bool
        ensures { result ≡ (length self.now == 0) }
    {
        self.numbers.is_empty()
    }

    /// Whether one more may wait.
    pub(crate) fn has_space(&self) -> bool
        ensures { result ≡ nat_lt (length self.now) pending_limit }
    {
        self.numbers.len() < 8
    }

    /// Their numbers.
    pub(crate) fn as_slice(&self) -> &[usize]
        ensures { result.now ≡ self.now }
    {
        self.numbers.as_slice()
    }

    /// One more waits.
    pub(crate) fn push(&mut self, number: usize)
        requires { length self.old < pending_limit }
        ensures { self.new ≡ self.old ++ number ∷ [] }
    {
        self.numbers.push(number);
    }

    /// The oldest no longer waits.
    pub(crate) fn pop(&mut self) -> usize
        requires { 0 < length self.old }
        ensures { self.old ≡ result ∷ self.new }
    {
        self.numbers.remove(0)
    }
}
