//! The objects of a table: reading, writing, holding and taking them out.
ghost use Rattle.std.specs.Prelude.{◌≡◌, IfOk, IfSome, MatchResult, IsTrue, is_some, Ok, Err};
ghost use Rattle.std.specs.FinMap as map;
ghost use Rattle.osal_idtable.specs.Table.{active_at, with_object};
ghost use Rattle.osal_idtable.specs.Steps.{lookup, unheld, remove_step, claim_step};
ghost use Rattle.osal_idtable.specs.Holds.{holds_of, hold_step, release_step};
ghost use Rattle.osal_idtable.specs.SlotSteps.{taking_fault};
ghost use Rattle.std.specs.Borrow.{sem};

use super::{IdFault, Table};
use crate::Token;
use osal_base::OsalId;

impl<T> Table<T> {
    ghost use Rattle.osal_idtable.specs.Lends.{lends_object, lends_at};

    /// The object that an identifier names.
    pub fn lookup(&self, id: OsalId) -> Result<&T, IdFault>
        ensures { MatchResult result
            (λ object. lookup self.now id ≡ Ok object.now)
            (λ fault. lookup self.now id ≡ Err fault) }
    {
        self.slots.lookup(id)
    }

    /// The object that an identifier names, for writing.
    pub fn get_mut(&mut self, id: OsalId) -> Result<&mut T, IdFault>
        ensures* writes_back { sem 𝓛 (lends_at T.row self.entry id result) }
        ensures value { MatchResult result
            (λ object. lookup self.old id ≡ Ok object.now)
            (λ fault. lookup self.old id ≡ Err fault) }
    {
        if self.is_active(id) {
            Ok(self.object_mut(id))
        } else {
            Err(IdFault::InvalidId)
        }
    }

    /// The object that an identifier names, for writing, where nobody holds it.
    pub fn exclusive(&mut self, id: OsalId) -> Result<&mut T, IdFault>
        ensures* writes_back { sem 𝓛 (lends_at T.row self.entry id result) }
        ensures value { MatchResult result
            (λ object. unheld (active_at self.old id) ≡ Ok object.now)
            (λ fault. unheld (active_at self.old id) ≡ Err fault) }
    {
        match self.fault_of_taking(id) {
            Some(fault) => Err(fault),
            None => Ok(self.object_mut(id)),
        }
    }

    /// Puts another object in the place of the one that an identifier names.
    pub fn put(&mut self, id: OsalId, object: T)
    where
        T: Drop,
        requires { IsTrue (is_some (active_at self.old id)) }
        ensures { self.new ≡ with_object self.old id object }
    {
        self.slots.put(id, object);
    }

    /// Takes out an object that nobody holds, and its identifier goes stale.
    pub fn remove(&mut self, id: OsalId) -> Result<T, IdFault>
        ensures { (result, self.new) ≡ remove_step self.old id }
    {
        self.slots.remove(id)
    }

    /// Takes out an object that nobody holds, and reserves its identifier again under its name.
    ///
    /// `finalize` restores the identifier or frees it.
    pub fn claim(&mut self, id: OsalId) -> Result<(Token, T), IdFault>
        ensures step { (result, self.new) ≡ claim_step self.old id }
        ensures reserved { IfOk result (λ pair. map.get self.new.reserved pair.0.id ≡ Some pair.0.name) }
    {
        self.slots.claim(id)
    }

    /// Holds the object once more, so that it can not be taken out.
    pub fn hold(&mut self, id: OsalId) -> Result<(), IdFault>
        ensures { (result, self.new) ≡ hold_step self.old id }
    {
        self.slots.hold(id)
    }

    /// Holds the object once less.
    pub fn release(&mut self, id: OsalId) -> Result<(), IdFault>
        ensures { (result, self.new) ≡ release_step self.old id }
    {
        self.slots.release(id)
    }

    /// How often the object is held.
    pub fn holds(&self, id: OsalId) -> Result<u32, IdFault>
        ensures { result ≡ holds_of (active_at self.now id) }
    {
        self.slots.holds(id)
    }

    fn is_active(&self, id: OsalId) -> bool
        ensures { result ≡ is_some (active_at self.now id) }
    {
        self.slots.is_active(id)
    }

    // Why an object may not be taken out.
    fn fault_of_taking(&self, id: OsalId) -> Option<IdFault>
        ensures { result ≡ taking_fault (active_at self.now id) }
    {
        self.slots.fault_of_taking(id)
    }

    /// The object that an active identifier names, for writing.
    pub fn object_mut(&mut self, id: OsalId) -> &mut T
        requires { IsTrue (is_some (active_at self.old id)) }
        ensures* lends { sem 𝓛 (lends_object T.row self.entry id result) }
        ensures value { IfSome (active_at self.old id) (λ a. a.object ≡ result.now) }
    {
        self.slots.object_mut(id)
    }
}
