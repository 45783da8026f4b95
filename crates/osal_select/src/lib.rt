//! Sets of streams, and what a select answers of those that are ready.
#![tactic(auto)]

mod boxed;
mod ready;
mod set;

pub use boxed::BoxedSet;
pub use ready::Ready;
pub use set::FdSet;
