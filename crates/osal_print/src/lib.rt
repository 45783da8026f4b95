//! The shortest text of an application.
#![tactic(auto)]

mod arguments;
mod shortest;
mod text;
mod words;

pub use text::print;
