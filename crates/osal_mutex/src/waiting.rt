//! How the takes of mutexes wait and end.
ghost use Rattle.std.specs.Prelude.{◌≡◌, IsOk, IfOk};
ghost use Rattle.osal_base.specs.Reply.{replied};
ghost use Rattle.osal_object.specs.Deadlines.{deadlines_in, least};
ghost use Rattle.osal_mutex.specs.Mutexes.{wait_end_step, wait_abandon_step, ready};

use crate::{Lock, Mutex, MutexPart};
use osal_base::{Ack, Moment, OsalId, OutOfMemory, Room, Status};
use std::alloc::Global;

impl MutexPart {
    /// Ends the take of the calling task where its mutex is free: the task owns it once.
    ///
    /// Else it answers `Waits` and changes nothing. It takes no memory.
    pub fn wait_end(
        &mut self,
        _alloc: Global,
        task: OsalId,
        _now: Moment,
        part: u32,
        room: &mut Room,
    ) -> Result<Ack, OutOfMemory>
        requires own { part ≡ 4 }
        ensures step { IfOk result (λ ack. (replied ack room.new, self.new) ≡ wait_end_step self.old task) }
        ensures memory { IsOk result }
    {
        room.clear();
        let id = match self.objects.wait_of(task) {
            Some(wait) => wait.what,
            None => return Ok(Ack::refused(Status::ErrIncorrectObjState)),
        };
        let mutex = match self.objects.lookup(id) {
            Ok(mutex) => *mutex,
            Err(_) => return Ok(Ack::waits()),
        };
        if mutex.lock.is_owned() {
            return Ok(Ack::waits());
        }
        let lock = Lock::Owned { task, depth: 1 };
        self.objects.put(id, Mutex { lock, ..mutex });
        self.objects.end(task);
        Ok(Ack::success())
    }

    /// Gives the take of the calling task up. It takes no memory.
    pub fn wait_abandon(
        &mut self,
        _alloc: Global,
        task: OsalId,
        _now: Moment,
        part: u32,
        room: &mut Room,
    ) -> Result<Ack, OutOfMemory>
        requires own { part ≡ 4 }
        ensures step { IfOk result (λ ack. (replied ack room.new, self.new) ≡ wait_abandon_step self.old task) }
        ensures memory { IsOk result }
    {
        room.clear();
        Ok(self.objects.abandon(task))
    }

    /// Whether the end of the task's take would not answer `Waits`.
    pub fn ready(&self, task: OsalId, _now: Moment, part: u32) -> bool
        requires { part ≡ 4 }
        ensures { result ≡ ready self.now task }
    {
        let id = match self.objects.wait_of(task) {
            Some(wait) => wait.what,
            None => return true,
        };
        match self.objects.lookup(id) {
            Ok(mutex) => !mutex.lock.is_owned(),
            Err(_) => false,
        }
    }

    /// The least deadline of an open take behind a moment, in milliseconds, if there is one.
    pub fn next_deadline(&self, now: Moment) -> Option<u64>
        ensures { result ≡ least (deadlines_in now self.now.objects.waits.records) }
    {
        self.objects.next_deadline(now)
    }
}
