//! The file systems, under the names of their devices.
ghost use Rattle.std.specs.Prelude.{◌≡◌, [], IfOk, IfSome, IsTrue, is_some, MatchResult, Some, Ok, Err};
ghost use Rattle.std.specs.Borrow.{sem};
ghost use Rattle.osal_base.specs.declared.id.ObjType.TheVariants as kind;
ghost use Rattle.osal_base.specs.Identifier.{type_number};
ghost use Rattle.osal_base.specs.Limits.{IsCapacity};
ghost use Rattle.osal_base.specs.Reply.{replied};
ghost use Rattle.osal_idtable.specs.Table.{active_at};
ghost use Rattle.osal_idtable.specs.Steps.{lookup, peeked, reserve_step, remove_step, find_id};
ghost use Rattle.osal_object.specs.Objects.{no_objects, create_step, delete_step, hold_call_step, release_call_step};

use crate::FileSystem;
use osal_base::{Ack, Name, ObjType, OsalId, OutOfMemory, Status};
use osal_idtable::{IdFault, ReserveFault, Table};
use std::alloc::Global;
use std::marker::Model;

/// The holds of a file system at which a further one is refused.
const HOLD_LIMIT: u32 = 1_000_000;

/// The file systems, each under the name of its device. No call waits for one, so there are no waits beside them.
#[derive(Drop)]
pub(crate) struct Devices {
    table: Table<FileSystem>,
    tasks: u32,
}

impl Model for Devices {
    ghost use Rattle.std.specs.Coded.{codes};
    ghost use Rattle.osal_idtable.specs.Code.{table_code};
    ghost use Rattle.osal_object.specs.Code.{objects_code};
    ghost use Rattle.osal_object.specs.Objects.{ObjectsState};
    ghost use Rattle.osal_object.specs.Waits.{no_waits};
    ghost use Rattle.osal_file.specs.declared.system.FileSystem.{FileSystem};
    ghost use Rattle.osal_file.specs.contracts.system.FileSystem as of_system;

    ghost Value = { ObjectsState FileSystem (Unit {0}) };

    ghost coded = { Prim.hlevel (codes, objects_code, of_system.the_row.coded) };

    ghost view = { λ a. record { table = a.table; waits = no_waits a.tasks } };

    ghost invariant = { λ a. Unit {0} };
}

impl Devices {
    ghost use Rattle.osal_file.specs.DeviceLends.{lends_system};

    /// No file systems, with room for so many.
    pub(crate) fn new(alloc: Global, capacity: u32, tasks: u32) -> Result<Devices, OutOfMemory>
        requires { IsCapacity capacity }
        ensures { IfOk result (λ made. made ≡ no_objects (type_number kind.FileSystem) capacity tasks) }
    {
        let table = Table::new(alloc, ObjType::FileSystem, capacity)?;
        Ok(Devices { table, tasks })
    }

    /// The file system that an identifier names.
    pub(crate) fn lookup(&self, id: OsalId) -> Result<&FileSystem, IdFault>
        ensures { MatchResult result
            (λ system. lookup self.now.table id ≡ Ok system.now)
            (λ fault. lookup self.now.table id ≡ Err fault) }
    {
        self.table.lookup(id)
    }

    /// Whether an identifier is active.
    pub(crate) fn is_active(&self, id: OsalId) -> bool
        ensures { result ≡ is_some (active_at self.now.table id) }
    {
        self.table.lookup(id).is_ok()
    }

    /// The identifier of the file system of that name.
    ///
    /// It compares as many names as the logarithm of the capacity.
    pub(crate) fn find(&self, name: &Name) -> Option<OsalId>
        ensures { result ≡ find_id self.now.table name.now }
    {
        self.table.find(name)
    }

    /// The identifier that a file system would get under a name.
    ///
    /// It compares as many names as the logarithm of the capacity, and looks at each slot once at most.
    pub(crate) fn peek(&self, name: &Name) -> Result<OsalId, ReserveFault>
        ensures { result ≡ peeked (reserve_step self.now.table (Some name.now)).0 }
    {
        self.table.peek(Some(name))
    }

    /// The file system that an active identifier names, for writing in its place.
    pub(crate) fn object_mut(&mut self, id: OsalId) -> &mut FileSystem
        requires { IsTrue (is_some (active_at self.old.table id)) }
        ensures* lends { sem 𝓛 (lends_system self.entry id result) }
        ensures value { IfSome (active_at self.old.table id) (λ a. a.object ≡ result.now) }
    {
        self.table.object_mut(id)
    }

    /// Makes a file system under a name, if it can be had. It takes no memory.
    pub(crate) fn create(&mut self, name: Name, system: FileSystem)
        ensures { self.new ≡ (create_step self.old (Some name) system).1 }
    {
        if let Ok(token) = self.table.reserve(Some(name)) {
            self.table.finalize(token, Some(system));
        }
    }

    /// Removes a file system that nobody holds.
    pub(crate) fn remove(&mut self, id: OsalId) -> Result<FileSystem, IdFault>
        ensures answer { result ≡ (remove_step self.old.table id).0 }
        ensures left { self.new ≡ (delete_step self.old id).1 }
    {
        self.table.remove(id)
    }

    /// Holds a file system, so that it is not removed.
    pub(crate) fn hold(&mut self, id: OsalId) -> Ack
        ensures { (replied result [], self.new) ≡ hold_call_step self.old id }
    {
        match self.table.holds(id) {
            Err(_) => return Ack::refused(Status::ErrInvalidId),
            Ok(holds) => {
                if holds >= HOLD_LIMIT {
                    return Ack::refused(Status::Error);
                }
            }
        }
        let held = self.table.hold(id);
        held.unwrap();
        Ack::success()
    }

    /// Gives a hold of a file system back.
    pub(crate) fn release(&mut self, id: OsalId) -> Ack
        ensures { (replied result [], self.new) ≡ release_call_step self.old id }
    {
        match self.table.holds(id) {
            Err(_) => return Ack::refused(Status::ErrInvalidId),
            Ok(holds) => {
                if holds == 0 {
                    return Ack::refused(Status::ErrIncorrectObjState);
                }
            }
        }
        let released = self.table.release(id);
        released.unwrap();
        Ack::success()
    }
}
