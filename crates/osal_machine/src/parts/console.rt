//! The console part of the machine.
ghost use Rattle.std.specs.Prelude.{◌≡◌, false, IsTrue, IsOk, IfOk, OnErr};
ghost use Rattle.osal_base.specs.Reply.{replied, success};
ghost use Rattle.osal_call.specs.Call.{takes_memory};
ghost use Rattle.osal_machine.specs.Parts.{Console};
ghost use Rattle.osal_machine.specs.Views.{Alone, is_own, view_step, is_ready_in, is_active_at, goes_at};
ghost use Rattle.osal_call.specs.declared.call.Call.TheVariants.{WaitEnd};

use crate::Part;
use osal_base::{Ack, Moment, OsalId, OutOfMemory, Room};
use osal_call::Call;
use osal_console::ConsolePart;
use std::alloc::Global;

impl Part for ConsolePart {
    ghost view = { λ part. Alone (Console part) };

    fn apply(
        &mut self,
        alloc: Global,
        task: OsalId,
        now: Moment,
        call: &Call,
        room: &mut Room,
    ) -> Result<Ack, OutOfMemory> {
        self.apply(alloc, task, now, call, room)
    }

    fn ready(&self, task: OsalId, now: Moment, part: u32) -> bool {
        self.ready(task, now, part)
    }

    fn active(&self, id: OsalId) -> bool {
        self.active(id)
    }

    fn goes(&self, _task: OsalId) -> bool {
        false
    }
}
