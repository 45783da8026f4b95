//! Files and directories on RAM volumes: the calls of OSAL's `osapi-file.h`, `osapi-dir.h` and `osapi-filesys.h`.
#![tactic(auto)]

mod devices;
mod directories;
mod files;
mod held;
mod nodes;
mod opened;
mod paths;
mod streams;
mod system;
mod systems;

pub use files::Files;
pub use opened::{OpenDirectory, OpenFile};
pub use system::FileSystem;
