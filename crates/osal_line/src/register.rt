//! The registers that lines name.
ghost use Rattle.std.specs.Prelude.{◌≡◌, ◌<◌};

use std::marker::Model;

/// The most registers of a body.
pub const REGISTER_LIMIT: usize = 32;

/// A register of a body, numbered by its first mention.
#[derive(Clone, Copy, Debug, PartialEq, Eq)]
pub struct Register {
    index: u32,
}

impl Model for Register {
    ghost use Rattle.std.specs.Prelude.{ℕ, ◌<◌};

    ghost Value = { ℕ };

    ghost view = { λ a. a.index };

    ghost invariant = { λ a. a.index < 32 };

    ghost inverse = { λ n. record { index = n } };
}

impl Register {
    /// The register of that number.
    pub fn new(index: u32) -> Register
        requires { index < 32 }
        ensures { result ≡ index }
    {
        Register { index }
    }

    /// Its number.
    pub fn index(self) -> usize
        ensures value { result ≡ self }
        ensures within { result < 32 }
    {
        self.index as usize
    }
}
