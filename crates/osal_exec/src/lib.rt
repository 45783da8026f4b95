//! The driver: it runs an application's tasks on the machine and keeps the journal.
#![tactic(auto)]

mod driver;
mod gates;
mod runners;
mod stage;

pub use driver::{Outcome, drive};
pub use gates::{FreeGate, Gate};
