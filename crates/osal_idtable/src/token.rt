//! Tokens of reservations.
ghost use Rattle.std.specs.Prelude.{◌≡◌};

use osal_base::{Name, OsalId};
use std::marker::Model;

/// A reserved identifier, which is owed an object: a token must be spent at the table that issued it.
pub struct Token {
    pub(crate) id: OsalId,
    pub(crate) name: Option<Name>,
}

impl Model for Token {
    ghost use Rattle.osal_idtable.specs.Table.{Reserved};

    ghost Value = { Reserved };

    ghost view = { λ a. record { id = a.id; name = a.name } };

    ghost invariant = { λ a. Unit {0} };
}

impl Token {
    pub(crate) fn new(id: OsalId, name: Option<Name>) -> Token
        ensures { result ≡ record { id = id; name = name } }
    {
        Token { id, name }
    }

    /// The identifier that the token stands for.
    pub fn id(&self) -> OsalId
        ensures { result ≡ self.now.id }
    {
        self.id
    }

    /// Gives the token up for its identifier.
    pub(crate) fn spend(self) -> OsalId
        ensures { result ≡ self.id }
    {
        let Token { id, name: _ } = self;
        id
    }
}
