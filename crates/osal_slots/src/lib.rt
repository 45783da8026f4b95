//! What belongs to an identifier and stands in its slot, beside the table that has the identifier.
#![tactic(auto)]

mod slots;

pub use slots::{empty_slots, in_slot, slot_among};
