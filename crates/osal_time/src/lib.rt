//! Timebases, timers, and the moment that it is: the calls of OSAL's `osapi-timebase.h` and `osapi-timer.h`, but for
//! `OS_TimeBaseSet`, `OS_TimeBaseGetInfo` and `OS_TimerCreate`.
#![tactic(auto)]

pub mod laws;
mod part;
mod ticks;
mod timebase;
mod timer;
mod timers;
mod waiting;

pub use part::TimePart;
pub use timebase::Timebase;
pub use timer::{Setting, Timer};
