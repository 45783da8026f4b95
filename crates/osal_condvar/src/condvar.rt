//! Condition variables, and what the calls on them wait for.
ghost use Rattle.std.specs.Prelude.{◌≡◌, Some};
ghost use Rattle.osal_object.specs.Standing.{standing_on};
ghost use Rattle.osal_object.specs.Waits.{new_wait};
ghost use Rattle.osal_condvar.specs.Condvars.{is_owner, is_for};

use osal_base::{Moment, OsalId, Timeout};
use osal_object::{Standing, WaitRecord};

/// A condition variable: of itself it has its lock alone.
#[derive(Clone, Copy, Debug, PartialEq, Eq)]
pub struct Condvar {
    /// The task that has the lock, where it is not free.
    pub owner: Option<OsalId>,
}

impl Condvar {
    /// Whether a task has the lock.
    pub(crate) fn is_owned_by(&self, task: OsalId) -> bool
        ensures { result ≡ is_owner self.now.owner task }
    {
        match self.owner {
            None => false,
            Some(owner) => owner == task,
        }
    }
}

/// What a call waits for.
#[derive(Clone, Copy, Debug, PartialEq, Eq)]
pub enum Aim {
    /// The lock alone.
    Lock,
    /// A signal, and then the lock.
    Signal,
}

/// What a call waits for, and at which condition variable.
#[derive(Clone, Copy, Debug, PartialEq, Eq)]
pub struct CondvarWait {
    pub id: OsalId,
    pub aim: Aim,
}

impl CondvarWait {
    /// Whether a signal of a condition variable is for this call.
    pub(crate) fn is_for(&self, id: OsalId) -> bool
        ensures { result ≡ is_for id self.now }
    {
        match self.aim {
            Aim::Lock => false,
            Aim::Signal => self.id == id,
        }
    }
}

/// The wait of a call that waits from now on, and holds the condition variable.
pub(crate) fn waiting_call(
    task: OsalId,
    id: OsalId,
    aim: Aim,
    wait: Timeout,
    now: Moment,
) -> WaitRecord<CondvarWait>
    ensures { result ≡ new_wait task (record { id = id; aim = aim }) (standing_on (Some id)) wait now }
{
    let what = CondvarWait { id, aim };
    WaitRecord::new(task, what, Standing::new(Some(id)), wait, now)
}
