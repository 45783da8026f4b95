//! The sources and sinks through which a program meets the outside: in memory, whose contents contracts see, and of the host.
#![tactic(auto)]

mod files;
mod host;
mod memory;
mod plan;
mod shelf;
mod sink;

pub use host::{HostShelf, HostSink};
pub use memory::{MemShelf, MemSink};
pub use shelf::{Opened, ReadFailed, Shelf};
pub use sink::{Sink, WriteFailed, send_all};
