//! Paths, and the file systems that they lead to.
#![tactic(auto)]

mod mounts;
mod parts;
mod path;
mod trail;

pub use mounts::MountMap;
pub use path::split;
pub use trail::Trail;
