//! How the lock of a condition variable is taken and freed.
ghost use Rattle.std.specs.Prelude.{◌≡◌, IsOk, IfOk};
ghost use Rattle.osal_base.specs.Reply.{replied};
ghost use Rattle.osal_condvar.specs.Condvars.{done, condvar_lock, condvar_unlock};

use crate::condvar::waiting_call;
use crate::{Aim, Condvar, CondvarPart};
use osal_base::{Ack, Moment, OsalId, OutOfMemory, Room, Status, Timeout};
use std::alloc::Global;

impl CondvarPart {
    /// `OS_CondVarLock`: takes the lock where it is free. It takes no memory.
    ///
    /// Where another task has the lock the task waits, without a deadline, and `wait_end` answers. Meanwhile the
    /// condition variable is held. A task that has the lock is refused.
    pub fn condvar_lock(
        &mut self,
        _alloc: Global,
        task: OsalId,
        now: Moment,
        id: OsalId,
        room: &mut Room,
    ) -> Result<Ack, OutOfMemory>
        ensures step { IfOk result (λ ack. (replied ack room.new, self.new) ≡ done self.old task now (condvar_lock task id)) }
        ensures memory { IsOk result }
    {
        room.clear();
        let owner = match self.objects.lookup(id) {
            Ok(condvar) => condvar.owner,
            Err(_) => return Ok(Ack::refused(Status::ErrInvalidId)),
        };
        match owner {
            None => {
                self.objects.put(id, Condvar { owner: Some(task) });
                Ok(Ack::success())
            }
            Some(owner) if owner == task => Ok(Ack::refused(Status::SemFailure)),
            Some(_) => {
                let wait = waiting_call(task, id, Aim::Lock, Timeout::Pend, now);
                Ok(self.objects.begin(wait))
            }
        }
    }

    /// `OS_CondVarUnlock`: frees the lock, which the task has to have. It takes no memory.
    pub fn condvar_unlock(
        &mut self,
        _alloc: Global,
        task: OsalId,
        now: Moment,
        id: OsalId,
        room: &mut Room,
    ) -> Result<Ack, OutOfMemory>
        ensures step { IfOk result (λ ack. (replied ack room.new, self.new) ≡ done self.old task now (condvar_unlock task id)) }
        ensures memory { IsOk result }
    {
        room.clear();
        let condvar = match self.objects.lookup(id) {
            Ok(condvar) => *condvar,
            Err(_) => return Ok(Ack::refused(Status::ErrInvalidId)),
        };
        if !condvar.is_owned_by(task) {
            return Ok(Ack::refused(Status::SemFailure));
        }
        self.objects.put(id, Condvar { owner: None });
        Ok(Ack::success())
    }
}
