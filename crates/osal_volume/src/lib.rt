//! A volume in memory: files and directories under paths, on blocks of 512 bytes.
#![tactic(auto)]

mod fault;
mod volume;

pub use fault::{Kind, VolFault};
pub use volume::Volume;
