//! One slot of a table.
ghost use Rattle.std.specs.Prelude.{◌≡◌, IsTrue, IfSome, is_some, option_copied};
ghost use Rattle.osal_idtable.specs.Slots.{active_entry, with_value, with_holds, is_live, live_id};
ghost use Rattle.osal_idtable.specs.Order.{slot_name, name_cmp};
ghost use Rattle.std.specs.Borrow.{sem};

use osal_base::{Name, OsalId};
use std::cmp::Ordering;

/// What stands in a slot.
#[derive(Drop)]
pub(crate) enum Slot<T> {
    Free,
    Reserved {
        id: OsalId,
        name: Option<Name>,
    },
    Active {
        id: OsalId,
        name: Option<Name>,
        holds: u32,
        object: T,
    },
}

impl<T> Slot<T> {
    ghost use Rattle.osal_idtable.specs.Lends.{lends_value};

    /// The name of the identifier in the slot, active or reserved.
    pub(crate) fn name(&self) -> Option<&Name>
        ensures { option_copied result ≡ slot_name self.now }
    {
        match self {
            Slot::Free => None,
            Slot::Reserved { id: _, name } => name.as_ref(),
            Slot::Active {
                id: _,
                name,
                holds: _,
                object: _,
            } => name.as_ref(),
        }
    }

    /// How the name in the slot compares with this one.
    pub(crate) fn compared(&self, name: &Name) -> Ordering
        ensures { result ≡ name_cmp (slot_name self.now) name.now }
    {
        match self.name() {
            None => Ordering::Less,
            Some(other) => other.as_slice().cmp(name.as_slice()),
        }
    }

    /// Puts another object in the place of the one in the slot.
    pub(crate) fn put(&mut self, value: T)
    where
        T: Drop,
        requires { IsTrue (is_some (active_entry self.old)) }
        ensures { self.new ≡ with_value self.old value }
    {
        match self {
            Slot::Active {
                id: _,
                name: _,
                holds: _,
                object,
            } => *object = value,
            Slot::Free => unreachable!(),
            Slot::Reserved { id: _, name: _ } => unreachable!(),
        }
    }

    /// The object in the slot, for writing.
    pub(crate) fn object_mut(&mut self) -> &mut T
        requires { IsTrue (is_some (active_entry self.old)) }
        ensures* lends { sem 𝓛 (lends_value T.row self.entry result) }
        ensures value { IfSome (active_entry self.old) (λ e. e.1.object ≡ result.now) }
    {
        match self {
            Slot::Active {
                id: _,
                name: _,
                holds: _,
                object,
            } => object,
            Slot::Free => unreachable!(),
            Slot::Reserved { id: _, name: _ } => unreachable!(),
        }
    }

    /// Changes the holds of the object in the slot.
    pub(crate) fn set_holds(&mut self, count: u32)
        requires { IsTrue (is_some (active_entry self.old)) }
        ensures { self.new ≡ with_holds self.old count }
    {
        match self {
            Slot::Active {
                id: _,
                name: _,
                holds,
                object: _,
            } => *holds = count,
            Slot::Free => unreachable!(),
            Slot::Reserved { id: _, name: _ } => unreachable!(),
        }
    }

    /// Whether the identifier in the slot is active.
    pub(crate) fn is_live(&self) -> bool
        ensures { result ≡ is_live self.now }
    {
        self.live_id().is_some()
    }

    /// The active identifier in the slot.
    pub(crate) fn live_id(&self) -> Option<OsalId>
        ensures { result ≡ live_id self.now }
    {
        match self {
            Slot::Active {
                id,
                name: _,
                holds: _,
                object: _,
            } => Some(*id),
            _ => None,
        }
    }
}

/// The same optional name again.
pub(crate) fn copied(name: &Option<Name>) -> Option<Name>
    ensures { result ≡ name.now }
{
    match name {
        None => None,
        Some(name) => Some(name.copied()),
    }
}
