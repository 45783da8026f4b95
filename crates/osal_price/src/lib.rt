//! What call lines cost, and which of them may stand in a handler.
#![tactic(auto)]

mod handlers;
mod price;

pub use handlers::{is_handler, may_wait, needs_task};
pub use price::{Prices, line_cost};
