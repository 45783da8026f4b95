//! How tasks wait for the signals of a condition variable, and who gets them.
ghost use Rattle.std.specs.Prelude.{◌≡◌, IsOk, IfOk};
ghost use Rattle.osal_base.specs.Reply.{replied};
ghost use Rattle.osal_condvar.specs.Condvars.{longest_waiting, done, condvar_signal, condvar_broadcast, condvar_wait};

use crate::condvar::waiting_call;
use crate::{Aim, Condvar, CondvarPart};
use osal_base::{Ack, Answer, Moment, OsalId, OutOfMemory, Room, Status, Timeout};
use std::alloc::Global;

impl CondvarPart {
    // The task that has waited longest for a signal, and has none yet.
    fn longest_waiting(&self, id: OsalId) -> Option<OsalId>
        ensures { result ≡ longest_waiting self.now.objects.waits.records id }
    {
        let waiting = self
            .objects
            .first_where(|wait| wait.what.is_for(id) && !wait.released);
        waiting.map(|wait| wait.task)
    }

    /// `OS_CondVarSignal`: signals the task that has waited longest and has no signal yet, where there is one.
    ///
    /// The caller needs no lock, and a task whose wait is due counts as one that waits. It looks at each open wait
    /// at most, and takes no memory.
    pub fn condvar_signal(
        &mut self,
        _alloc: Global,
        task: OsalId,
        now: Moment,
        id: OsalId,
        room: &mut Room,
    ) -> Result<Ack, OutOfMemory>
        ensures step { IfOk result (λ ack. (replied ack room.new, self.new) ≡ done self.old task now (condvar_signal self.old id)) }
        ensures memory { IsOk result }
    {
        room.clear();
        if !self.objects.is_active(id) {
            return Ok(Ack::refused(Status::ErrInvalidId));
        }
        if let Some(waiting) = self.longest_waiting(id) {
            self.objects.release_of(waiting);
        }
        Ok(Ack::success())
    }

    /// `OS_CondVarBroadcast`: signals each task that waits for a signal. It takes no memory.
    ///
    /// They end one after the other, as the lock becomes free.
    pub fn condvar_broadcast(
        &mut self,
        _alloc: Global,
        task: OsalId,
        now: Moment,
        id: OsalId,
        room: &mut Room,
    ) -> Result<Ack, OutOfMemory>
        ensures step { IfOk result (λ ack. (replied ack room.new, self.new) ≡ done self.old task now (condvar_broadcast id)) }
        ensures memory { IsOk result }
    {
        room.clear();
        if !self.objects.is_active(id) {
            return Ok(Ack::refused(Status::ErrInvalidId));
        }
        self.objects.release_where(|wait| wait.what.is_for(id));
        Ok(Ack::success())
    }

    /// `OS_CondVarWait` and `OS_CondVarTimedWait`: frees the lock and waits for a signal. It takes no memory.
    ///
    /// `wait_end` answers, once the task has the lock again. Meanwhile the condition variable is held. A call that
    /// is refused keeps the lock, also one that may not wait at all.
    pub fn condvar_wait(
        &mut self,
        _alloc: Global,
        task: OsalId,
        now: Moment,
        id: OsalId,
        wait: Timeout,
        room: &mut Room,
    ) -> Result<Ack, OutOfMemory>
        ensures step { IfOk result (λ ack. (replied ack room.new, self.new)
            ≡ done self.old task now (condvar_wait task id wait)) }
        ensures memory { IsOk result }
    {
        room.clear();
        let condvar = match self.objects.lookup(id) {
            Ok(condvar) => *condvar,
            Err(_) => return Ok(Ack::refused(Status::ErrInvalidId)),
        };
        if !condvar.is_owned_by(task) {
            return Ok(Ack::refused(Status::SemFailure));
        }
        if wait.is_check() {
            return Ok(Ack::refused(Status::ErrorTimeout));
        }
        let ack = self
            .objects
            .begin(waiting_call(task, id, Aim::Signal, wait, now));
        if ack.answer == Answer::Waits {
            self.objects.put(id, Condvar { owner: None });
        }
        Ok(ack)
    }
}
