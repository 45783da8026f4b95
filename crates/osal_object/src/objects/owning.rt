//! What serves objects that own memory: a look before one is made, and writing to one in its place.
ghost use Rattle.std.specs.Prelude.{◌≡◌, IfSome, IsTrue, is_some, Some, None};
ghost use Rattle.std.specs.Borrow.{sem};
ghost use Rattle.osal_idtable.specs.Table.{active_at};
ghost use Rattle.osal_idtable.specs.Steps.{peeked, reserve_step};

use super::Objects;
use osal_base::{Name, OsalId};
use osal_idtable::ReserveFault;

impl<T, W> Objects<T, W> {
    ghost use Rattle.osal_object.specs.ObjectLends.{lends_object};

    /// What `create` would answer under the name, so that an object is only made where it has a place.
    ///
    /// It compares the name with as many others as the logarithm of the capacity, and looks at each slot once at most.
    pub fn peek(&self, name: &Name) -> Result<OsalId, ReserveFault>
        ensures { result ≡ peeked (reserve_step self.now.table (Some name.now)).0 }
    {
        self.table.peek(Some(name))
    }

    /// What `create_unnamed` would answer. It looks at each slot once at most.
    pub fn peek_unnamed(&self) -> Result<OsalId, ReserveFault>
        ensures { result ≡ peeked (reserve_step self.now.table None).0 }
    {
        self.table.peek(None)
    }

    /// The object that an active identifier names, for writing in its place.
    pub fn object_mut(&mut self, id: OsalId) -> &mut T
        requires { IsTrue (is_some (active_at self.old.table id)) }
        ensures* lends { sem 𝓛 (lends_object T.row W.row self.entry id result) }
        ensures value { IfSome (active_at self.old.table id) (λ a. a.object ≡ result.now) }
    {
        self.table.object_mut(id)
    }
}
