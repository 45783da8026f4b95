//! The objects of one kind beside the waits that stand on them: what every part of the machine does alike.
#![tactic(auto)]

mod guesses;
mod held;
pub mod laws;
mod objects;
mod standing;
mod waits;

pub use objects::Objects;
pub use standing::Standing;
pub use waits::{WaitRecord, sooner};
