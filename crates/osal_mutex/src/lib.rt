//! Mutexes: the calls of OSAL's `osapi-mutex.h`.
#![tactic(auto)]

mod calls;
mod mutex;
mod part;
mod waiting;

pub use mutex::{Lock, Mutex};
pub use part::MutexPart;
