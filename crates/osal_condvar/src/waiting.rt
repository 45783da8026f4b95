//! How the calls that wait end: each end takes the lock.
ghost use Rattle.std.specs.Prelude.{◌≡◌, IsOk, IfOk};
ghost use Rattle.osal_base.specs.Reply.{replied};
ghost use Rattle.osal_object.specs.Deadlines.{deadlines_in, least};
ghost use Rattle.osal_condvar.specs.Condvars.{wait_end_step, wait_abandon_step, ready};

use crate::{Aim, Condvar, CondvarPart};
use osal_base::{Ack, Moment, OsalId, OutOfMemory, Room, Status};
use std::alloc::Global;

impl CondvarPart {
    /// Ends the wait of the calling task where the lock is free, and the task waits for the lock alone, was signalled
    /// or is due. The task has the lock then.
    ///
    /// Else it answers `Waits` and changes nothing. It takes no memory.
    pub fn wait_end(
        &mut self,
        _alloc: Global,
        task: OsalId,
        now: Moment,
        part: u32,
        room: &mut Room,
    ) -> Result<Ack, OutOfMemory>
        requires own { part ≡ 5 }
        ensures step { IfOk result (λ ack. (replied ack room.new, self.new) ≡ wait_end_step self.old task now) }
        ensures memory { IsOk result }
    {
        room.clear();
        let (what, released, due) = match self.objects.wait_of(task) {
            Some(wait) => (wait.what, wait.released, wait.is_due(now)),
            None => return Ok(Ack::refused(Status::ErrIncorrectObjState)),
        };
        match self.objects.lookup(what.id) {
            Ok(condvar) if condvar.owner.is_none() => {}
            _ => return Ok(Ack::waits()),
        }
        let ack = match what.aim {
            Aim::Signal if !released && !due => return Ok(Ack::waits()),
            Aim::Signal if !released => Ack::refused(Status::ErrorTimeout),
            _ => Ack::success(),
        };
        self.objects.put(what.id, Condvar { owner: Some(task) });
        self.objects.end(task);
        Ok(ack)
    }

    /// Gives the wait of the calling task up: it gets neither the signal nor the lock. It takes no memory.
    pub fn wait_abandon(
        &mut self,
        _alloc: Global,
        task: OsalId,
        _now: Moment,
        part: u32,
        room: &mut Room,
    ) -> Result<Ack, OutOfMemory>
        requires own { part ≡ 5 }
        ensures step { IfOk result (λ ack. (replied ack room.new, self.new) ≡ wait_abandon_step self.old task) }
        ensures memory { IsOk result }
    {
        room.clear();
        Ok(self.objects.abandon(task))
    }

    /// Whether the end of the task's wait would not answer `Waits`.
    pub fn ready(&self, task: OsalId, now: Moment, part: u32) -> bool
        requires { part ≡ 5 }
        ensures { result ≡ ready self.now task now }
    {
        let Some(wait) = self.objects.wait_of(task) else {
            return true;
        };
        match self.objects.lookup(wait.what.id) {
            Ok(condvar) if condvar.owner.is_none() => match wait.what.aim {
                Aim::Lock => true,
                Aim::Signal => wait.released || wait.is_due(now),
            },
            _ => false,
        }
    }

    /// The least deadline of an open wait behind a moment, in milliseconds, if there is one.
    pub fn next_deadline(&self, now: Moment) -> Option<u64>
        ensures { result ≡ least (deadlines_in now self.now.objects.waits.records) }
    {
        self.objects.next_deadline(now)
    }
}
