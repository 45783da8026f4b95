//! What the parts have in common.
ghost use Rattle.std.specs.Prelude.{◌≡◌, false, IsTrue, IsOk, IfOk, OnErr};
ghost use Rattle.osal_call.specs.Call.{takes_memory};
ghost use Rattle.osal_base.specs.Reply.{replied, success};
ghost use Rattle.osal_machine.specs.Views.{PartView, is_own, view_step, is_ready_in, is_active_at, goes_at};
ghost use Rattle.osal_call.specs.declared.call.Call.TheVariants.{WaitEnd};

use osal_base::{Ack, Moment, OsalId, OutOfMemory, Room};
use osal_call::Call;
use std::alloc::Global;

/// A part of the machine, or the whole of it: what changes under one hand.
pub trait Part {
    /// What stands behind its calls.
    ghost view: { Self → PartView };

    /// Makes a call that is the part's own. The bytes of the reply are left in the room.
    ///
    /// A queue and a volume take memory when they are made, a directory when it is opened, and ask for it last: where
    /// there is none, nothing changes, and nothing else would have refused the call.
    fn apply(
        &mut self,
        alloc: Global,
        task: OsalId,
        now: Moment,
        call: &Call,
        room: &mut Room,
    ) -> Result<Ack, OutOfMemory>
        requires { IsTrue (is_own (view self.old) call.now) }
        ensures step { IfOk result (λ ack. (replied ack room.new, view self.new) ≡ view_step (view self.old) task now call.now) }
        ensures kept { OnErr result (view self.new ≡ view self.old) }
        ensures asked_last { OnErr result ((view_step (view self.old) task now call.now).0.answer ≡ success.answer) }
        ensures memory { takes_memory call.now ≡ false → IsOk result };

    /// Whether the end of a task's wait in the part of that number would not answer `Waits`.
    fn ready(&self, task: OsalId, now: Moment, part: u32) -> bool
        requires { IsTrue (is_own (view self.now) (WaitEnd part)) }
        ensures { result ≡ is_ready_in (view self.now) task now part };

    /// Whether an identifier is active.
    fn active(&self, id: OsalId) -> bool
        ensures { result ≡ is_active_at (view self.now) id };

    /// Whether a task is active and not marked for deletion: false where there are no tasks.
    fn goes(&self, task: OsalId) -> bool
        ensures { result ≡ goes_at (view self.now) task };
}
