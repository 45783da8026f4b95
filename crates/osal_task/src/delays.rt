//! How a task waits for time to pass.
ghost use Rattle.std.specs.Prelude.{◌≡◌, ◌<◌, ◌⊎◌, IsOk, IfOk};
ghost use Rattle.osal_base.specs.Reply.{replied};
ghost use Rattle.osal_object.specs.Deadlines.{deadlines_in, least};
ghost use Rattle.osal_task.specs.Tasks.{done};
ghost use Rattle.osal_task.specs.Delays.{task_delay, wait_end_step, wait_abandon_step, ready};

use crate::TaskPart;
use osal_base::{Ack, Moment, OsalId, OutOfMemory, Room, Status, Timeout};
use osal_object::{Standing, WaitRecord};
use std::alloc::Global;

impl TaskPart {
    /// `OS_TaskDelay`: waits so many milliseconds, or not at all for 0. It takes no memory.
    pub fn task_delay(
        &mut self,
        _alloc: Global,
        task: OsalId,
        now: Moment,
        ms: u32,
        room: &mut Room,
    ) -> Result<Ack, OutOfMemory>
        ensures step { IfOk result (λ ack. (replied ack room.new, self.new) ≡ done self.old task now (task_delay ms)) }
        ensures memory { IsOk result }
    {
        room.clear();
        if ms == 0 {
            return Ok(Ack::success());
        }
        let wait = WaitRecord::new(task, (), Standing::new(None), Timeout::Ms(ms), now);
        Ok(self.objects.begin(wait))
    }

    /// Ends the delay of the calling task where it is due, and answers `Waits` with no change where it is not.
    ///
    /// A number above 8 is no part's, and comes here: no task waits in it. It takes no memory.
    pub fn wait_end(
        &mut self,
        _alloc: Global,
        task: OsalId,
        now: Moment,
        part: u32,
        room: &mut Room,
    ) -> Result<Ack, OutOfMemory>
        requires own { (part ≡ 0) ⊎ (8 < part) }
        ensures step { IfOk result (λ ack. (replied ack room.new, self.new) ≡ wait_end_step self.old task now part) }
        ensures memory { IsOk result }
    {
        room.clear();
        let due = match self.objects.wait_of(task) {
            Some(wait) if part == 0 => wait.is_due(now),
            _ => return Ok(Ack::refused(Status::ErrIncorrectObjState)),
        };
        if !due {
            return Ok(Ack::waits());
        }
        self.objects.end(task);
        Ok(Ack::success())
    }

    /// Gives the delay of the calling task up. It takes no memory.
    pub fn wait_abandon(
        &mut self,
        _alloc: Global,
        task: OsalId,
        _now: Moment,
        part: u32,
        room: &mut Room,
    ) -> Result<Ack, OutOfMemory>
        requires own { (part ≡ 0) ⊎ (8 < part) }
        ensures step { IfOk result (λ ack. (replied ack room.new, self.new) ≡ wait_abandon_step self.old task part) }
        ensures memory { IsOk result }
    {
        room.clear();
        if part != 0 {
            return Ok(Ack::refused(Status::ErrIncorrectObjState));
        }
        Ok(self.objects.abandon(task))
    }

    /// Whether the end of the task's wait would not answer `Waits`.
    pub fn ready(&self, task: OsalId, now: Moment, part: u32) -> bool
        requires { (part ≡ 0) ⊎ (8 < part) }
        ensures { result ≡ ready self.now task now part }
    {
        match self.objects.wait_of(task) {
            Some(wait) if part == 0 => wait.is_due(now),
            _ => true,
        }
    }

    /// The least deadline of an open delay behind a moment, in milliseconds, if there is one.
    pub fn next_deadline(&self, now: Moment) -> Option<u64>
        ensures { result ≡ least (deadlines_in now self.now.objects.waits.records) }
    {
        self.objects.next_deadline(now)
    }
}
