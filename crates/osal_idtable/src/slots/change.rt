//! What becomes of an identifier in its slot.
ghost use Rattle.std.specs.Prelude.{◌≡◌, ◌<◌, IfSome, IsTrue, is_some, None, Some, Ok, Err};
ghost use Rattle.osal_idtable.specs.declared.slot.Slot.TheVariants as slot;
ghost use Rattle.osal_idtable.specs.Slots.{active_entry, slot_at, written};
ghost use Rattle.osal_idtable.specs.SlotSteps.{slot_claim, slot_hold, slot_release, reheld, taking_fault, slot_finalize, slot_remove, reserved_under, active_under, slot_put};
ghost use Rattle.std.specs.Borrow.{sem};

use super::Slots;
use super::order::delist;
use crate::slot::{Slot, copied};
use crate::{IdFault, Token};
use osal_base::{Name, OsalId};
use std::mem;

/// The most holds of one object.
pub(crate) const HOLD_LIMIT: u32 = 1_001_024;

impl<T> Slots<T> {
    ghost use Rattle.osal_idtable.specs.Lends.{lends_under};

    /// Makes a reserved identifier active with its object, or its slot free.
    pub(crate) fn finalize(&mut self, id: OsalId, value: Option<T>)
        requires { IsTrue (is_some (reserved_under self.old id)) }
        ensures { self.new ≡ slot_finalize self.old id value }
    {
        let name = self.reserved_name(id);
        let old = match value {
            None => self.free(id),
            Some(object) => {
                let holds = 0;
                self.write(
                    id,
                    Slot::Active {
                        id,
                        name,
                        holds,
                        object,
                    },
                )
            }
        };
        spend(old);
    }

    // The name of a reserved identifier.
    fn reserved_name(&self, id: OsalId) -> Option<Name>
        requires { IsTrue (is_some (reserved_under self.now id)) }
        ensures { reserved_under self.now id ≡ Some result }
    {
        match self.at(id) {
            Slot::Reserved { id: _, name } => copied(name),
            _ => unreachable!(),
        }
    }

    // Frees the slot of an identifier, and gives what stood in it.
    fn free(&mut self, id: OsalId) -> Slot<T>
        ensures old { result ≡ slot_at self.old id }
        ensures new { self.new ≡ written self.old id slot.Free }
    {
        let at = id.index(self.capacity()) as usize;
        delist(self.slots.as_slice(), &mut self.order, at);
        mem::replace(&mut self.slots[at], Slot::Free)
    }

    // Why an object may not be taken out.
    pub(crate) fn fault_of_taking(&self, id: OsalId) -> Option<IdFault>
        ensures { result ≡ taking_fault (active_under self.now id) }
    {
        match self.at(id) {
            Slot::Active {
                id: at,
                name: _,
                holds,
                object: _,
            } => {
                if id.raw() != at.raw() {
                    return Some(IdFault::InvalidId);
                }
                if *holds > 0 {
                    return Some(IdFault::ObjectInUse);
                }
                None
            }
            _ => Some(IdFault::InvalidId),
        }
    }

    /// Takes out an object that nobody holds.
    pub(crate) fn remove(&mut self, id: OsalId) -> Result<T, IdFault>
        ensures { (result, self.new) ≡ slot_remove self.old id }
    {
        if let Some(fault) = self.fault_of_taking(id) {
            return Err(fault);
        }
        let (_, object) = taken(self.free(id));
        Ok(object)
    }

    pub(crate) fn claim(&mut self, id: OsalId) -> Result<(Token, T), IdFault>
        ensures { (result, self.new) ≡ slot_claim self.old id }
    {
        if let Some(fault) = self.fault_of_taking(id) {
            return Err(fault);
        }
        let name = self.name_of(id)?;
        let (kept, object) = taken(self.write(id, Slot::Reserved { id, name }));
        Ok((Token::new(id, kept), object))
    }

    /// Puts another object in the place of the one that an identifier names.
    pub(crate) fn put(&mut self, id: OsalId, object: T)
    where
        T: Drop,
        requires { IsTrue (is_some (active_under self.old id)) }
        ensures { self.new ≡ slot_put self.old id object }
    {
        let at = id.index(self.capacity()) as usize;
        self.slots[at].put(object);
    }

    /// The object that an identifier names, for writing.
    pub(crate) fn object_mut(&mut self, id: OsalId) -> &mut T
        requires { IsTrue (is_some (active_under self.old id)) }
        ensures* lends { sem 𝓛 (lends_under T.row self.entry id result) }
        ensures value { IfSome (active_under self.old id) (λ a. a.object ≡ result.now) }
    {
        let at = id.index(self.capacity()) as usize;
        self.slots[at].object_mut()
    }

    pub(crate) fn hold(&mut self, id: OsalId) -> Result<(), IdFault>
        ensures { (result, self.new) ≡ slot_hold self.old id }
    {
        let holds = self.holds(id)?;
        if holds >= HOLD_LIMIT {
            return Err(IdFault::TooMany);
        }
        self.set_holds(id, holds + 1);
        Ok(())
    }

    pub(crate) fn release(&mut self, id: OsalId) -> Result<(), IdFault>
        ensures { (result, self.new) ≡ slot_release self.old id }
    {
        let holds = self.holds(id)?;
        if holds == 0 {
            return Err(IdFault::NotHeld);
        }
        self.set_holds(id, holds - 1);
        Ok(())
    }

    // Changes the holds of an active identifier.
    fn set_holds(&mut self, id: OsalId, count: u32)
        requires { IsTrue (is_some (active_under self.old id)) }
        ensures { self.new ≡ reheld self.old id count (active_under self.old id) }
    {
        let at = id.index(self.capacity()) as usize;
        self.slots[at].set_holds(count);
    }
}

// Takes apart what stood in the slot of a reserved identifier.
fn spend<T>(content: Slot<T>)
    requires { active_entry content ≡ None }
{
    match content {
        Slot::Free => (),
        Slot::Reserved { id: _, name: _ } => (),
        Slot::Active {
            id: _,
            name: _,
            holds: _,
            object: _,
        } => unreachable!(),
    }
}

// The name and the object that stood in the slot of an active identifier.
fn taken<T>(content: Slot<T>) -> (Option<Name>, T)
    requires { IsTrue (is_some (active_entry content)) }
    ensures { IfSome (active_entry content) (λ e. (e.1.name ≡ result.0) × (e.1.object ≡ result.1)) }
{
    match content {
        Slot::Active {
            id: _,
            name,
            holds: _,
            object,
        } => (name, object),
        Slot::Free => unreachable!(),
        Slot::Reserved { id: _, name: _ } => unreachable!(),
    }
}
