//! The items of a body as they nest: the laws that tie the flat list of them to what it stands for.
#![tactic(auto)]

pub mod laws;
