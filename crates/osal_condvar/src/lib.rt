//! Condition variables, each with its lock: the calls of OSAL's `osapi-condvar.h`.
#![tactic(auto)]

mod condvar;
mod lock;
mod part;
mod signal;
mod waiting;

pub use condvar::{Aim, Condvar, CondvarWait};
pub use part::CondvarPart;
