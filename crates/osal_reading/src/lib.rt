//! The text of an application: its reading, or its first bad line with the first rule that it breaks.
#![tactic(auto)]

mod blocks;
mod calls;
mod draft;
mod fault;
mod reader;
mod reading;

pub use fault::{AppFault, FaultKind, ParseFault};
pub use reader::parse;
