//! Semaphores: the calls of OSAL's `osapi-binsem.h` and `osapi-countsem.h`.
#![tactic(auto)]

mod binary;
mod counting;

pub use binary::{BinSem, BinSemPart};
pub use counting::{CountSem, CountSemPart};
