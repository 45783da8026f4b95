//! A table of objects beside the waits that stand on them.
ghost use Rattle.std.specs.Prelude.{◌≡◌, [], IfOk, IsTrue, is_some, option_copied, MatchResult, Some, None, Ok, Err};
ghost use Rattle.osal_base.specs.Identifier.{type_number};
ghost use Rattle.osal_base.specs.Limits.{IsCapacity};
ghost use Rattle.osal_base.specs.Reply.{replied};
ghost use Rattle.osal_idtable.specs.Table.{active_at};
ghost use Rattle.osal_idtable.specs.Steps.{lookup};
ghost use Rattle.osal_idtable.specs.Looks.{name_under};
ghost use Rattle.osal_idtable.specs.Holds.{holds_of, is_held};
ghost use Rattle.osal_object.specs.Waits.{wait_of, stands_on};
ghost use Rattle.osal_object.specs.Objects.{no_objects, with_value, create_step, delete_step, find_reply, info_reply, hold_call_step, release_call_step};
ghost use Rattle.osal_object.specs.Waiting.{begin_step, end_wait, abandon_step, release_waits};

mod owning;
mod waiting;

use crate::waits::{WaitRecord, Waits};
use osal_base::{Ack, Name, ObjType, OsalId, OutOfMemory, Room, Status};
use osal_idtable::{IdFault, Table, status_of_id, status_of_name, status_of_reserve};
use std::alloc::Global;
use std::marker::Model;

/// The holds of an object, its open waits counted, at which a caller's hold is refused.
const CALLER_HOLD_LIMIT: u32 = 1_000_000;

/// The objects of one type, and the open waits of their part: each part is one such pair and its rows.
///
/// The holds of an object are those of callers and the open waits that stand on it.
#[derive(Drop)]
pub struct Objects<T, W> {
    table: Table<T>,
    waits: Waits<W>,
}

impl<T, W> Model for Objects<T, W> {
    ghost use Rattle.osal_object.specs.Objects.{ObjectsState};
    ghost use Rattle.osal_object.specs.Code.{objects_code};

    ghost Value = { ObjectsState T W };

    ghost coded = { objects_code T.code W.code };

    ghost view = { λ a. record { table = a.table; waits = a.waits } };

    ghost invariant = { λ a. Unit {0} };
}

impl<T, W: Drop> Objects<T, W> {
    /// No objects and no waits, with the memory for `capacity` objects and a wait of each of `tasks` tasks.
    pub fn new(
        alloc: Global,
        kind: ObjType,
        capacity: u32,
        tasks: u32,
    ) -> Result<Objects<T, W>, OutOfMemory>
        requires objects { IsCapacity capacity }
        requires tasks { IsCapacity tasks }
        ensures { IfOk result (λ made. made ≡ no_objects (type_number kind) capacity tasks) }
    {
        let waits = Waits::new(alloc, tasks)?;
        let table = Table::new(alloc, kind, capacity)?;
        Ok(Objects { table, waits })
    }
}

impl<T, W> Objects<T, W> {
    /// The object that an identifier names.
    pub fn lookup(&self, id: OsalId) -> Result<&T, IdFault>
        ensures { MatchResult result
            (λ object. lookup self.now.table id ≡ Ok object.now)
            (λ fault. lookup self.now.table id ≡ Err fault) }
    {
        self.table.lookup(id)
    }

    /// Whether an identifier is active.
    pub fn is_active(&self, id: OsalId) -> bool
        ensures { result ≡ is_some (active_at self.now.table id) }
    {
        self.table.lookup(id).is_ok()
    }

    /// How often an object is held, by callers and by open waits.
    pub fn holds(&self, id: OsalId) -> Result<u32, IdFault>
        ensures { result ≡ holds_of (active_at self.now.table id) }
    {
        self.table.holds(id)
    }

    /// Whether somebody holds an object, a caller or an open wait.
    pub fn is_held(&self, id: OsalId) -> bool
        ensures { result ≡ is_held (active_at self.now.table id) }
    {
        match self.table.holds(id) {
            Ok(holds) => 0 < holds,
            Err(_) => false,
        }
    }

    /// The name of an active identifier.
    pub fn name_of(&self, id: OsalId) -> Result<Option<Name>, IdFault>
        ensures { result ≡ name_under (active_at self.now.table id) }
    {
        self.table.name_of(id)
    }

    /// Gives the identifier of the object with that name, or why there is none.
    ///
    /// It compares the name with as many others as the logarithm of the capacity.
    pub fn find(&self, name: &[u8]) -> Ack
        ensures { replied result [] ≡ find_reply self.now name.now }
    {
        let name = match Name::new(name) {
            Ok(name) => name,
            Err(fault) => return Ack::refused(status_of_name(fault)),
        };
        match self.table.find(&name) {
            Some(id) => Ack::gives(u64::from(id.raw())),
            None => Ack::refused(Status::ErrNameNotFound),
        }
    }

    /// Tells a number of an object, and its name in the room, or why there is none.
    pub fn info(&self, id: OsalId, number: u64, room: &mut Room) -> Ack
        requires empty { room.old ≡ [] }
        ensures { replied result room.new ≡ info_reply (λ _. number) (active_at self.now.table id) }
    {
        match self.table.name_of(id) {
            Err(_) => return Ack::refused(Status::ErrInvalidId),
            Ok(None) => {}
            Ok(Some(name)) => room.append(name.as_slice()),
        }
        Ack::gives(number)
    }

    /// Holds an object, so that it is not removed.
    pub fn hold(&mut self, id: OsalId) -> Ack
        ensures { (replied result [], self.new) ≡ hold_call_step self.old id }
    {
        match self.table.holds(id) {
            Err(_) => return Ack::refused(Status::ErrInvalidId),
            Ok(holds) => {
                if holds >= CALLER_HOLD_LIMIT {
                    return Ack::refused(Status::Error);
                }
            }
        }
        let held = self.table.hold(id);
        held.unwrap();
        Ack::success()
    }

    /// Gives a hold back, where there are more of them than the waits that stand on the object.
    pub fn release(&mut self, id: OsalId) -> Ack
        ensures { (replied result [], self.new) ≡ release_call_step self.old id }
    {
        match self.table.holds(id) {
            Err(_) => return Ack::refused(Status::ErrInvalidId),
            Ok(holds) => {
                if holds <= self.waits.count_on(id) {
                    return Ack::refused(Status::ErrIncorrectObjState);
                }
            }
        }
        let released = self.table.release(id);
        released.unwrap();
        Ack::success()
    }
}

impl<T: Drop, W> Objects<T, W> {
    /// Makes the object under a fresh identifier, or answers why it can't be had. It takes no memory.
    pub fn create(&mut self, name: Name, object: T) -> Ack
        ensures { (replied result [], self.new) ≡ create_step self.old (Some name) object }
    {
        self.create_under(Some(name), object)
    }

    /// Does what `create` does, for an object without a name.
    pub fn create_unnamed(&mut self, object: T) -> Ack
        ensures { (replied result [], self.new) ≡ create_step self.old None object }
    {
        self.create_under(None, object)
    }

    fn create_under(&mut self, name: Option<Name>, object: T) -> Ack
        ensures { (replied result [], self.new) ≡ create_step self.old name object }
    {
        match self.table.reserve(name) {
            Ok(token) => {
                let id = self.table.finalize(token, Some(object));
                Ack::gives(u64::from(id.raw()))
            }
            Err(fault) => Ack::refused(status_of_reserve(fault)),
        }
    }

    /// Puts another object in the place of the one that an identifier names.
    pub fn put(&mut self, id: OsalId, object: T)
        requires { IsTrue (is_some (active_at self.old.table id)) }
        ensures { self.new ≡ with_value self.old id object }
    {
        self.table.put(id, object);
    }

    /// Removes an object that nobody holds. It takes no memory.
    pub fn delete(&mut self, id: OsalId) -> Ack
        ensures { (replied result [], self.new) ≡ delete_step self.old id }
    {
        match self.table.remove(id) {
            Ok(_) => Ack::success(),
            Err(fault) => Ack::refused(status_of_id(fault)),
        }
    }
}
