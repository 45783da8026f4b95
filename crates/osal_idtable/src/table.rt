//! The object table.
ghost use Rattle.std.specs.Prelude.{◌≡◌, IfOk, IsTrue, option_copied, Ok, Err};
ghost use Rattle.std.specs.FinMap as map;
ghost use Rattle.osal_base.specs.Identifier.{type_number};
ghost use Rattle.osal_base.specs.Limits.{IsCapacity};
ghost use Rattle.osal_idtable.specs.Table.{opening};
ghost use Rattle.osal_idtable.specs.Steps.{peeked, reserve_step, is_reserved, finalize_step, finalize_id_step};

mod look;
mod object;

use crate::Token;
use crate::slots::Slots;
use osal_base::{Name, ObjType, OsalId, OutOfMemory};
use std::alloc::Global;
use std::marker::Model;

/// Why an identifier could not be reserved, tried in this order.
#[derive(Clone, Copy, Debug, PartialEq, Eq)]
pub enum ReserveFault {
    /// An active or reserved identifier has the name.
    NameTaken,
    /// Each slot has an active or reserved identifier.
    NoFreeIds,
}

/// Why a call on an identifier was refused.
#[derive(Clone, Copy, Debug, PartialEq, Eq)]
pub enum IdFault {
    /// The identifier is not active.
    InvalidId,
    /// Somebody holds the object.
    ObjectInUse,
    /// The object has as many holds as it may have.
    TooMany,
    /// Nobody holds the object.
    NotHeld,
}

/// A table of objects of one type, under identifiers that go stale when their object is removed.
///
/// An identifier is `reserved -> active -> removed`. Its slot is its serial modulo the capacity.
#[derive(Drop)]
pub struct Table<T> {
    slots: Slots<T>,
}

impl<T> Model for Table<T> {
    ghost use Rattle.osal_idtable.specs.Table.{TableState};
    ghost use Rattle.osal_idtable.specs.Code.{table_code};

    ghost Value = { TableState T };

    ghost coded = { table_code T.code };

    ghost use Rattle.osal_idtable.specs.Sound.{table_of, IsSound};

    ghost view = { λ a. table_of a.slots };

    ghost invariant = { λ a. IsSound a.slots };
}

impl<T> Table<T> {
    /// An empty table for `capacity` objects of the kind.
    pub fn new(alloc: Global, kind: ObjType, capacity: u32) -> Result<Table<T>, OutOfMemory>
        requires { IsCapacity capacity }
        ensures { IfOk result (λ table. table ≡ opening (type_number kind) capacity) }
    {
        let slots = Slots::new(alloc, kind, capacity)?;
        Ok(Table { slots })
    }

    /// Sets the next identifier aside, under the name where there is one.
    ///
    /// It compares the name with as many others as the logarithm of the capacity, and looks at each slot once at
    /// most for a free one. It moves the numbers of the slots whose names come later, and takes no memory.
    pub fn reserve(&mut self, name: Option<Name>) -> Result<Token, ReserveFault>
        ensures step { (result, self.new) ≡ reserve_step self.old name }
        ensures reserved { IfOk result (λ token. map.get self.new.reserved token.id ≡ Some token.name) }
    {
        self.slots.reserve(name)
    }

    /// What `reserve` would answer for the name, with the identifier in place of the token.
    ///
    /// It compares and looks as `reserve` does.
    pub fn peek(&self, name: Option<&Name>) -> Result<OsalId, ReserveFault>
        ensures { result ≡ peeked (reserve_step self.now (option_copied name.entry)).0 }
    {
        self.slots.peek(name)
    }

    /// Whether an identifier is reserved.
    pub fn is_reserved(&self, id: OsalId) -> bool
        ensures { result ≡ is_reserved self.now id }
    {
        self.slots.is_reserved(id)
    }

    /// Makes a reserved identifier active with its object and no holds, or gives it up where there is none.
    pub fn finalize(&mut self, token: Token, value: Option<T>) -> OsalId
        requires { IsTrue (is_reserved self.old token.id) }
        ensures id { result ≡ token.id }
        ensures step { self.new ≡ finalize_step self.old token.id value }
    {
        let id = token.spend();
        self.settle(id, value);
        id
    }

    /// Does what `finalize` does, for an identifier that may be reserved.
    ///
    /// A refused call gives the value up.
    pub fn finalize_id(&mut self, id: OsalId, value: Option<T>) -> Result<OsalId, IdFault>
    where
        T: Drop,
        ensures { (result, self.new) ≡ finalize_id_step self.old id value }
    {
        if !self.is_reserved(id) {
            return Err(IdFault::InvalidId);
        }
        self.settle(id, value);
        Ok(id)
    }

    /// Spends a token, and leaves its identifier reserved: `finalize_id` may end it.
    pub fn park(&mut self, token: Token)
        requires { IsTrue (is_reserved self.old token.id) }
        ensures { self.new ≡ self.old }
    {
        token.spend();
    }

    fn settle(&mut self, id: OsalId, value: Option<T>)
        requires { IsTrue (is_reserved self.old id) }
        ensures { self.new ≡ finalize_step self.old id value }
    {
        self.slots.finalize(id, value);
    }
}
