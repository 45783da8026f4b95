//! How the takes of binary semaphores wait and end.
ghost use Rattle.std.specs.Prelude.{◌≡◌, IsOk, IfOk};
ghost use Rattle.osal_base.specs.Reply.{replied};
ghost use Rattle.osal_object.specs.Deadlines.{deadlines_in, least};
ghost use Rattle.osal_sem.specs.Binary.{bin_sem_at, is_full, wait_end_step, wait_abandon_step, ready};

use crate::{BinSem, BinSemPart};
use osal_base::{Ack, Moment, OsalId, OutOfMemory, Room, Status};
use std::alloc::Global;

impl BinSemPart {
    // Whether a semaphore is there and full.
    fn is_full(&self, id: OsalId) -> bool
        ensures { result ≡ is_full (bin_sem_at self.now id) }
    {
        match self.objects.lookup(id) {
            Ok(sem) => sem.full,
            Err(_) => false,
        }
    }

    /// Ends the take of the calling task where it was released, its semaphore is full, or it is due.
    ///
    /// Else it answers `Waits` and changes nothing. It takes no memory.
    pub fn wait_end(
        &mut self,
        _alloc: Global,
        task: OsalId,
        now: Moment,
        part: u32,
        room: &mut Room,
    ) -> Result<Ack, OutOfMemory>
        requires own { part ≡ 3 }
        ensures step { IfOk result (λ ack. (replied ack room.new, self.new) ≡ wait_end_step self.old task now) }
        ensures memory { IsOk result }
    {
        room.clear();
        let (id, released, due) = match self.objects.wait_of(task) {
            Some(wait) => (wait.what, wait.released, wait.is_due(now)),
            None => return Ok(Ack::refused(Status::ErrIncorrectObjState)),
        };
        if released {
            self.objects.end(task);
            return Ok(Ack::success());
        }
        if self.is_full(id) {
            self.objects.put(id, BinSem { full: false });
            self.objects.end(task);
            return Ok(Ack::success());
        }
        if due {
            self.objects.end(task);
            return Ok(Ack::refused(Status::SemTimeout));
        }
        Ok(Ack::waits())
    }

    /// Gives the take of the calling task up. It takes no memory.
    pub fn wait_abandon(
        &mut self,
        _alloc: Global,
        task: OsalId,
        _now: Moment,
        part: u32,
        room: &mut Room,
    ) -> Result<Ack, OutOfMemory>
        requires own { part ≡ 3 }
        ensures step { IfOk result (λ ack. (replied ack room.new, self.new) ≡ wait_abandon_step self.old task) }
        ensures memory { IsOk result }
    {
        room.clear();
        Ok(self.objects.abandon(task))
    }

    /// Whether the end of the task's take would not answer `Waits`.
    pub fn ready(&self, task: OsalId, now: Moment, part: u32) -> bool
        requires { part ≡ 3 }
        ensures { result ≡ ready self.now task now }
    {
        match self.objects.wait_of(task) {
            Some(wait) => wait.released || self.is_full(wait.what) || wait.is_due(now),
            None => true,
        }
    }

    /// The least deadline of an open take behind a moment, in milliseconds, if there is one.
    pub fn next_deadline(&self, now: Moment) -> Option<u64>
        ensures { result ≡ least (deadlines_in now self.now.objects.waits.records) }
    {
        self.objects.next_deadline(now)
    }
}
