//! The names and directories of a volume, and a number for each of its files.
#![tactic(auto)]

mod kind;
mod node;
mod path;
mod slots;
mod tree;

pub use kind::{Kind, TreeFault};
pub use tree::Tree;
