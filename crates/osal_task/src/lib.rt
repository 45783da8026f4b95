//! Tasks: the calls of OSAL's `osapi-task.h`, and the checkpoint at which a task learns whether it goes on.
#![tactic(auto)]

mod calls;
mod delays;
mod part;

pub use part::{Task, TaskPart};
