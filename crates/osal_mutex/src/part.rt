//! The mutex part.
ghost use Rattle.std.specs.Prelude.{◌≡◌, IsOk, IfOk, is_some};
ghost use Rattle.osal_base.specs.Limits.{Fits};
ghost use Rattle.osal_base.specs.Reply.{replied};
ghost use Rattle.osal_idtable.specs.Table.{active_at};
ghost use Rattle.osal_object.specs.Outcomes.{Hold, Release};
ghost use Rattle.osal_mutex.specs.Mutexes.{no_mutexes, done};

use crate::Mutex;
use osal_base::{Ack, Limits, Moment, ObjType, OsalId, OutOfMemory, Room};
use osal_object::Objects;
use std::alloc::Global;
use std::marker::Model;

/// The mutexes, and the takes that wait.
#[derive(Drop)]
pub struct MutexPart {
    pub(crate) objects: Objects<Mutex, OsalId>,
}

impl Model for MutexPart {
    ghost use Rattle.osal_mutex.specs.Mutexes.{MutexState};
    ghost use Rattle.std.specs.Coded.{codes};
    ghost use Rattle.osal_object.specs.Code.{objects_code};

    ghost Value = { MutexState };

    ghost coded = { Prim.hlevel (codes, objects_code) };

    ghost view = { λ a. record { objects = a.objects } };

    ghost invariant = { λ a. Unit {0} };
}

impl MutexPart {
    /// No mutexes, with the memory for as many as the limits say, and for a take of each task.
    pub fn open(alloc: Global, limits: &Limits) -> Result<MutexPart, OutOfMemory>
        requires { Fits limits.now }
        ensures { IfOk result (λ part. part ≡ no_mutexes limits.now) }
    {
        let objects = Objects::new(alloc, ObjType::Mutex, limits.mutexes, limits.tasks)?;
        Ok(MutexPart { objects })
    }

    /// Holds a mutex, so that it is not removed. It takes no memory.
    pub fn hold(
        &mut self,
        _alloc: Global,
        task: OsalId,
        now: Moment,
        id: OsalId,
        room: &mut Room,
    ) -> Result<Ack, OutOfMemory>
        ensures step { IfOk result (λ ack. (replied ack room.new, self.new) ≡ done self.old task now (Hold id)) }
        ensures memory { IsOk result }
    {
        room.clear();
        Ok(self.objects.hold(id))
    }

    /// Gives a hold of a mutex back. It takes no memory.
    pub fn release(
        &mut self,
        _alloc: Global,
        task: OsalId,
        now: Moment,
        id: OsalId,
        room: &mut Room,
    ) -> Result<Ack, OutOfMemory>
        ensures step { IfOk result (λ ack. (replied ack room.new, self.new) ≡ done self.old task now (Release id)) }
        ensures memory { IsOk result }
    {
        room.clear();
        Ok(self.objects.release(id))
    }

    /// Whether an identifier is one of an active mutex.
    pub fn active(&self, id: OsalId) -> bool
        ensures { result ≡ is_some (active_at self.now.objects.table id) }
    {
        self.objects.is_active(id)
    }
}
