//! Applications: what their scripts call, and what they cost.
#![tactic(auto)]

mod body;
mod cost;
mod cursor;
mod expected;
mod handling;
mod item;
mod phase;
mod walk;

pub use body::{App, Body};
pub use cursor::{Cursor, Step};
pub use item::Item;
pub use osal_line::{BodyKind, Expect, Line, Literal, REGISTER_LIMIT, Register, ScriptCall, Value};
pub use phase::Phase;
