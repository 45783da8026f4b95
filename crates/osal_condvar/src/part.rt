//! The condition variable part.
ghost use Rattle.std.specs.Prelude.{◌≡◌, IsOk, IfOk, is_some, ◌==◌, IsTrue};
ghost use Rattle.osal_base.specs.Limits.{Fits};
ghost use Rattle.osal_base.specs.Reply.{replied};
ghost use Rattle.osal_idtable.specs.Table.{active_at};
ghost use Rattle.osal_object.specs.Outcomes.{Find, Hold, Release};
ghost use Rattle.osal_condvar.specs.Condvars.{no_condvars, done, condvar_create, condvar_delete, condvar_step};
ghost use Rattle.osal_call.specs.Call.{part_of};

use crate::{Condvar, CondvarWait};
use osal_base::{Ack, Bytes, Limits, Moment, Name, ObjType, OsalId, OutOfMemory, Room, Status};
use osal_call::Call;
use osal_idtable::status_of_name;
use osal_object::Objects;
use std::alloc::Global;
use std::marker::Model;

/// The condition variables, and the calls that wait.
///
/// A wait for a signal is `open -> signalled -> ended`, or `open -> due -> ended`; each end needs the lock free.
#[derive(Drop)]
pub struct CondvarPart {
    pub(crate) objects: Objects<Condvar, CondvarWait>,
}

impl Model for CondvarPart {
    ghost use Rattle.osal_condvar.specs.Condvars.{CondvarState};
    ghost use Rattle.std.specs.Coded.{codes};
    ghost use Rattle.osal_object.specs.Code.{objects_code};

    ghost Value = { CondvarState };

    ghost coded = { Prim.hlevel (codes, objects_code) };

    ghost view = { λ a. record { objects = a.objects } };

    ghost invariant = { λ a. Unit {0} };
}

impl CondvarPart {
    /// No condition variables, with the memory for as many as the limits say, and for a wait of each task.
    pub fn open(alloc: Global, limits: &Limits) -> Result<CondvarPart, OutOfMemory>
        requires { Fits limits.now }
        ensures { IfOk result (λ part. part ≡ no_condvars limits.now) }
    {
        let objects = Objects::new(alloc, ObjType::Condvar, limits.condvars, limits.tasks)?;
        Ok(CondvarPart { objects })
    }

    /// `OS_CondVarCreate`: makes a condition variable, its lock free, and gives its identifier.
    ///
    /// It takes no memory; the search for the name and for a free slot costs at most the capacity each.
    pub fn condvar_create(
        &mut self,
        _alloc: Global,
        task: OsalId,
        now: Moment,
        name: &Bytes,
        room: &mut Room,
    ) -> Result<Ack, OutOfMemory>
        ensures step { IfOk result (λ ack. (replied ack room.new, self.new)
            ≡ done self.old task now (condvar_create name.now.bytes)) }
        ensures memory { IsOk result }
    {
        room.clear();
        let name = match Name::new(name.as_slice()) {
            Ok(name) => name,
            Err(fault) => return Ok(Ack::refused(status_of_name(fault))),
        };
        Ok(self.objects.create(name, Condvar { owner: None }))
    }

    /// `OS_CondVarDelete`: removes a condition variable that nobody holds and whose lock is free.
    ///
    /// It takes no memory.
    pub fn condvar_delete(
        &mut self,
        _alloc: Global,
        task: OsalId,
        now: Moment,
        id: OsalId,
        room: &mut Room,
    ) -> Result<Ack, OutOfMemory>
        ensures step { IfOk result (λ ack. (replied ack room.new, self.new) ≡ done self.old task now (condvar_delete id)) }
        ensures memory { IsOk result }
    {
        room.clear();
        let locked = match self.objects.lookup(id) {
            Ok(condvar) => condvar.owner.is_some(),
            Err(_) => return Ok(Ack::refused(Status::ErrInvalidId)),
        };
        if locked || self.objects.is_held(id) {
            return Ok(Ack::refused(Status::ErrObjectInUse));
        }
        Ok(self.objects.delete(id))
    }

    /// `OS_CondVarGetIdByName`: gives the identifier of a condition variable.
    ///
    /// It compares as many names as the logarithm of the capacity.
    pub fn condvar_find(
        &mut self,
        _alloc: Global,
        task: OsalId,
        now: Moment,
        name: &Bytes,
        room: &mut Room,
    ) -> Result<Ack, OutOfMemory>
        ensures step { IfOk result (λ ack. (replied ack room.new, self.new) ≡ done self.old task now (Find name.now.bytes)) }
        ensures memory { IsOk result }
    {
        room.clear();
        Ok(self.objects.find(name.as_slice()))
    }

    /// Holds a condition variable, so that it is not removed.
    pub fn hold(
        &mut self,
        _alloc: Global,
        task: OsalId,
        now: Moment,
        id: OsalId,
        room: &mut Room,
    ) -> Result<Ack, OutOfMemory>
        ensures step { IfOk result (λ ack. (replied ack room.new, self.new) ≡ done self.old task now (Hold id)) }
        ensures memory { IsOk result }
    {
        room.clear();
        Ok(self.objects.hold(id))
    }

    /// Gives a hold of a condition variable back.
    pub fn release(
        &mut self,
        _alloc: Global,
        task: OsalId,
        now: Moment,
        id: OsalId,
        room: &mut Room,
    ) -> Result<Ack, OutOfMemory>
        ensures step { IfOk result (λ ack. (replied ack room.new, self.new) ≡ done self.old task now (Release id)) }
        ensures memory { IsOk result }
    {
        room.clear();
        Ok(self.objects.release(id))
    }

    /// Whether an identifier is one of an active condition variable.
    pub fn active(&self, id: OsalId) -> bool
        ensures { result ≡ is_some (active_at self.now.objects.table id) }
    {
        self.objects.is_active(id)
    }

    /// Makes a call that is the part's own. The bytes of the reply are left in the room.
    pub fn apply(
        &mut self,
        alloc: Global,
        task: OsalId,
        now: Moment,
        call: &Call,
        room: &mut Room,
    ) -> Result<Ack, OutOfMemory>
        requires { IsTrue (part_of call.now == 5) }
        ensures step { IfOk result (λ ack. (replied ack room.new, self.new) ≡ condvar_step self.old task now call.now) }
        ensures memory { IsOk result }
    {
        match call {
            Call::CondvarCreate { name } => self.condvar_create(alloc, task, now, name, room),
            Call::CondvarLock { id } => self.condvar_lock(alloc, task, now, *id, room),
            Call::CondvarUnlock { id } => self.condvar_unlock(alloc, task, now, *id, room),
            Call::CondvarSignal { id } => self.condvar_signal(alloc, task, now, *id, room),
            Call::CondvarBroadcast { id } => self.condvar_broadcast(alloc, task, now, *id, room),
            Call::CondvarWait { id, wait } => self.condvar_wait(alloc, task, now, *id, *wait, room),
            Call::CondvarDelete { id } => self.condvar_delete(alloc, task, now, *id, room),
            Call::CondvarFind { name } => self.condvar_find(alloc, task, now, name, room),
            Call::Hold { id } => self.hold(alloc, task, now, *id, room),
            Call::Release { id } => self.release(alloc, task, now, *id, room),
            Call::WaitEnd { part } => self.wait_end(alloc, task, now, *part, room),
            Call::WaitAbandon { part } => self.wait_abandon(alloc, task, now, *part, room),
            _ => unreachable!(),
        }
    }
}
