//! How the takes of counting semaphores wait and end.
ghost use Rattle.std.specs.Prelude.{◌≡◌, IsOk, IfOk};
ghost use Rattle.osal_base.specs.Reply.{replied};
ghost use Rattle.osal_object.specs.Deadlines.{deadlines_in, least};
ghost use Rattle.osal_sem.specs.Counting.{count_sem_at, value_of, wait_end_step, wait_abandon_step, ready};

use crate::{CountSem, CountSemPart};
use osal_base::{Ack, Moment, OsalId, OutOfMemory, Room, Status};
use std::alloc::Global;

impl CountSemPart {
    // The value of a semaphore, or 0 where there is none.
    fn value_of(&self, id: OsalId) -> u32
        ensures { result ≡ value_of (count_sem_at self.now id) }
    {
        match self.objects.lookup(id) {
            Ok(sem) => sem.value,
            Err(_) => 0,
        }
    }

    /// Ends the take of the calling task where its semaphore has a value above 0, or it is due.
    ///
    /// Else it answers `Waits` and changes nothing. It takes no memory.
    pub fn wait_end(
        &mut self,
        _alloc: Global,
        task: OsalId,
        now: Moment,
        part: u32,
        room: &mut Room,
    ) -> Result<Ack, OutOfMemory>
        requires own { part ≡ 2 }
        ensures step { IfOk result (λ ack. (replied ack room.new, self.new) ≡ wait_end_step self.old task now) }
        ensures memory { IsOk result }
    {
        room.clear();
        let (id, due) = match self.objects.wait_of(task) {
            Some(wait) => (wait.what, wait.is_due(now)),
            None => return Ok(Ack::refused(Status::ErrIncorrectObjState)),
        };
        let value = self.value_of(id);
        if value > 0 {
            self.objects.put(id, CountSem { value: value - 1 });
            self.objects.end(task);
            return Ok(Ack::success());
        }
        if due {
            self.objects.end(task);
            return Ok(Ack::refused(Status::SemTimeout));
        }
        Ok(Ack::waits())
    }

    /// Gives the take of the calling task up. It takes no memory.
    pub fn wait_abandon(
        &mut self,
        _alloc: Global,
        task: OsalId,
        _now: Moment,
        part: u32,
        room: &mut Room,
    ) -> Result<Ack, OutOfMemory>
        requires own { part ≡ 2 }
        ensures step { IfOk result (λ ack. (replied ack room.new, self.new) ≡ wait_abandon_step self.old task) }
        ensures memory { IsOk result }
    {
        room.clear();
        Ok(self.objects.abandon(task))
    }

    /// Whether the end of the task's take would not answer `Waits`.
    pub fn ready(&self, task: OsalId, now: Moment, part: u32) -> bool
        requires { part ≡ 2 }
        ensures { result ≡ ready self.now task now }
    {
        match self.objects.wait_of(task) {
            Some(wait) => self.value_of(wait.what) > 0 || wait.is_due(now),
            None => true,
        }
    }

    /// The least deadline of an open take behind a moment, in milliseconds, if there is one.
    pub fn next_deadline(&self, now: Moment) -> Option<u64>
        ensures { result ≡ least (deadlines_in now self.now.objects.waits.records) }
    {
        self.objects.next_deadline(now)
    }
}
