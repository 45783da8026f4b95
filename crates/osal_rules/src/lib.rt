//! The rules of the lines of an application's text, one predicate for each, and the law that a reading tells the first
//! line that breaks one, with the first that it breaks.
#![tactic(auto)]

pub mod laws;
