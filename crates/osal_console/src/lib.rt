//! The console: the calls of OSAL's `osapi-printf.h`, without the formatting.
#![tactic(auto)]

mod calls;
mod part;

pub use part::ConsolePart;
