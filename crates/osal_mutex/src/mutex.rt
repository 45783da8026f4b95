//! What is kept of a mutex.
ghost use Rattle.std.specs.Prelude.{◌≡◌};
ghost use Rattle.osal_mutex.specs.Mutexes.{is_owned, lock_given};

use osal_base::OsalId;

/// A mutex. It is `free -> owned once -> owned deeper -> .. -> free`, and is removed only where it is free.
#[derive(Clone, Copy, Debug, PartialEq, Eq)]
pub struct Mutex {
    /// The task that made it.
    pub creator: OsalId,
    pub lock: Lock,
}

/// Whether a task owns a mutex.
#[derive(Clone, Copy, Debug, PartialEq, Eq)]
pub enum Lock {
    Free,
    Owned {
        task: OsalId,
        /// How often the task has taken it and not yet given it back: 1 to 32,767.
        depth: u32,
    },
}

impl Lock {
    /// Whether a task owns the mutex.
    pub(crate) fn is_owned(&self) -> bool
        ensures { result ≡ is_owned self.now }
    {
        match self {
            Lock::Free => false,
            Lock::Owned { .. } => true,
        }
    }

    /// The lock of a task that had taken the mutex so often, once it has given it back.
    pub(crate) fn given(task: OsalId, depth: u32) -> Lock
        ensures { result ≡ lock_given task depth }
    {
        match depth {
            0 | 1 => Lock::Free,
            _ => Lock::Owned {
                task,
                depth: depth - 1,
            },
        }
    }
}
