//! Gates: what is told of each call before it is made.

use osal_base::OsalId;

/// What is passed before each call of a task's script.
pub trait Gate {
    /// The task is about to make a call of this line; 0 stands for the exit at the end of a body.
    fn pass(&self, task: OsalId, line: u32);
}

/// A gate that lets each call pass at once.
#[derive(Clone, Copy, Debug, PartialEq, Eq)]
pub struct FreeGate;

impl Gate for FreeGate {
    fn pass(&self, _task: OsalId, _line: u32) {}
}
