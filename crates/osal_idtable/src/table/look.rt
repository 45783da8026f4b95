//! What a table tells of itself.
ghost use Rattle.std.specs.Prelude.{◌≡◌, ◌≤◌};
ghost use Rattle.std.specs.FinMap as map;
ghost use Rattle.osal_idtable.specs.Table.{active_at};
ghost use Rattle.osal_idtable.specs.Steps.{find_id};
ghost use Rattle.osal_idtable.specs.Looks.{slot_after, name_under, IsNextFrom};

use super::{IdFault, Table};
use osal_base::{Name, OsalId};

impl<T> Table<T> {
    /// The active identifier with the name: a reserved name is taken and is not found.
    ///
    /// It compares the name with as many others as the logarithm of the capacity, whatever names there are.
    pub fn find(&self, name: &Name) -> Option<OsalId>
        ensures { result ≡ find_id self.now name.now }
    {
        self.slots.find(name)
    }

    /// The name of an active identifier.
    pub fn name_of(&self, id: OsalId) -> Result<Option<Name>, IdFault>
        ensures { result ≡ name_under (active_at self.now id) }
    {
        self.slots.name_of(id)
    }

    /// The active identifier in the least slot above the one of `id`, or in the least of all for the undefined one.
    ///
    /// The identifier itself need not be active. It looks at each slot once at most.
    pub fn next_from(&self, id: OsalId) -> Option<OsalId>
        ensures { IsNextFrom self.now (slot_after id self.now.capacity) result }
    {
        self.slots.next_from(id)
    }

    /// The most objects that the table has room for.
    pub fn capacity(&self) -> u32
        ensures value { result ≡ self.now.capacity }
        ensures some { 1 ≤ result }
        ensures few { result ≤ 1024 }
    {
        self.slots.capacity()
    }

    /// The serial of the last identifier issued.
    pub fn last_serial(&self) -> u16
        ensures { result ≡ self.now.last }
    {
        self.slots.last().serial
    }

    /// How often the serials began again.
    pub fn wraps(&self) -> u64
        ensures { result ≡ self.now.wraps }
    {
        self.slots.last().wraps
    }

    /// How many identifiers are active. It looks at each slot.
    pub fn len(&self) -> u32
        ensures { result ≡ map.len self.now.active }
    {
        self.slots.len()
    }
}
