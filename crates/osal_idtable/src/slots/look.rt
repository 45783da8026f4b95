//! What the slots tell of an identifier or a name.
ghost use Rattle.std.specs.Prelude.{◌≡◌, ◌<◌, length, MatchResult, MatchOption, count_by, is_some, Ok, Err};
ghost use Rattle.osal_idtable.specs.Slots.{is_live, first_named, NoneLive, FirstLive};
ghost use Rattle.osal_idtable.specs.Holds.{holds_of};
ghost use Rattle.osal_idtable.specs.Looks.{slot_after, name_under};
ghost use Rattle.osal_idtable.specs.SlotSteps.{slot_lookup, reserved_under, active_under};

use super::Slots;
use super::order::slot_named;
use super::scan::{count_live, first_live};
use crate::IdFault;
use crate::slot::{Slot, copied};
use osal_base::{Name, OsalId};

impl<T> Slots<T> {
    pub(crate) fn lookup(&self, id: OsalId) -> Result<&T, IdFault>
        ensures { MatchResult result
            (λ object. slot_lookup self.now id ≡ Ok object.now)
            (λ fault. slot_lookup self.now id ≡ Err fault) }
    {
        match self.at(id) {
            Slot::Active {
                id: at,
                name: _,
                holds: _,
                object,
            } => {
                if id.raw() == at.raw() {
                    return Ok(object);
                }
                Err(IdFault::InvalidId)
            }
            _ => Err(IdFault::InvalidId),
        }
    }

    /// Whether an identifier is active.
    pub(crate) fn is_active(&self, id: OsalId) -> bool
        ensures { result ≡ is_some (active_under self.now id) }
    {
        match self.at(id) {
            Slot::Active {
                id: at,
                name: _,
                holds: _,
                object: _,
            } => id.raw() == at.raw(),
            _ => false,
        }
    }

    pub(crate) fn is_reserved(&self, id: OsalId) -> bool
        ensures { result ≡ is_some (reserved_under self.now id) }
    {
        match self.at(id) {
            Slot::Reserved { id: at, name: _ } => id.raw() == at.raw(),
            _ => false,
        }
    }

    /// The holds of an active identifier.
    pub(crate) fn holds(&self, id: OsalId) -> Result<u32, IdFault>
        ensures { result ≡ holds_of (active_under self.now id) }
    {
        match self.at(id) {
            Slot::Active {
                id: at,
                name: _,
                holds,
                object: _,
            } => {
                if id.raw() != at.raw() {
                    return Err(IdFault::InvalidId);
                }
                Ok(*holds)
            }
            _ => Err(IdFault::InvalidId),
        }
    }

    /// The name of an active identifier.
    pub(crate) fn name_of(&self, id: OsalId) -> Result<Option<Name>, IdFault>
        ensures { result ≡ name_under (active_under self.now id) }
    {
        match self.at(id) {
            Slot::Active {
                id: at,
                name,
                holds: _,
                object: _,
            } => {
                if id.raw() != at.raw() {
                    return Err(IdFault::InvalidId);
                }
                Ok(copied(name))
            }
            _ => Err(IdFault::InvalidId),
        }
    }

    pub(crate) fn find(&self, name: &Name) -> Option<OsalId>
        ensures { result ≡ first_named name.now self.now.slots }
    {
        match slot_named(self.slots.as_slice(), self.order.as_slice(), name) {
            None => None,
            Some(at) => self.slots[at].live_id(),
        }
    }

    /// The active identifier in the least slot above the one of `id`, or of all for the undefined one.
    pub(crate) fn next_from(&self, id: OsalId) -> Option<OsalId>
        ensures { MatchOption result
            (NoneLive self.now.slots (slot_after id (length self.now.slots)))
            (FirstLive self.now.slots (slot_after id (length self.now.slots))) }
    {
        let start = if id.raw() == 0 {
            0
        } else {
            id.index(self.capacity()) + 1
        };
        first_live(self.slots.as_slice(), start as usize)
    }

    pub(crate) fn len(&self) -> u32
        ensures { result ≡ count_by is_live self.now.slots }
    {
        count_live(self.slots.as_slice())
    }
}
