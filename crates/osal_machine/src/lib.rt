//! The machine: the product of its parts, and what a call does to it.
#![tactic(auto)]

mod any;
mod part;
mod parts;
mod whole;

pub use any::AnyPart;
pub use part::Part;
pub use whole::Whole;
