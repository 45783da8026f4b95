//! The ends of waits, which the part has since every part has them: none of its calls waits.
ghost use Rattle.std.specs.Prelude.{◌≡◌, IsOk, IfOk};
ghost use Rattle.osal_base.specs.Reply.{replied};
ghost use Rattle.osal_time.specs.Time.{done, without_wait, ready};

use crate::TimePart;
use osal_base::{Ack, Moment, OsalId, OutOfMemory, Room, Status};
use std::alloc::Global;

impl TimePart {
    /// Refuses with `OS_ERR_INCORRECT_OBJ_STATE`: no task has an open wait here.
    pub fn wait_end(
        &mut self,
        _alloc: Global,
        task: OsalId,
        now: Moment,
        part: u32,
        room: &mut Room,
    ) -> Result<Ack, OutOfMemory>
        requires own { part ≡ 6 }
        ensures step { IfOk result (λ ack. (replied ack room.new, self.new) ≡ done self.old task now without_wait) }
        ensures memory { IsOk result }
    {
        room.clear();
        Ok(Ack::refused(Status::ErrIncorrectObjState))
    }

    /// Refuses with `OS_ERR_INCORRECT_OBJ_STATE`, as `wait_end` does.
    pub fn wait_abandon(
        &mut self,
        alloc: Global,
        task: OsalId,
        now: Moment,
        part: u32,
        room: &mut Room,
    ) -> Result<Ack, OutOfMemory>
        requires own { part ≡ 6 }
        ensures step { IfOk result (λ ack. (replied ack room.new, self.new) ≡ done self.old task now without_wait) }
        ensures memory { IsOk result }
    {
        self.wait_end(alloc, task, now, part, room)
    }

    /// Whether the end of the task's wait would not answer `Waits`: it never would.
    pub fn ready(&self, task: OsalId, now: Moment, part: u32) -> bool
        requires { part ≡ 6 }
        ensures { result ≡ ready self.now task now }
    {
        true
    }
}
