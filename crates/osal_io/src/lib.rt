//! The io part: streams, files, directories, file systems and sockets under one hand.
#![tactic(auto)]

mod awaited;
mod ends;
mod part;
mod selects;
mod sockets;
mod streams;

pub use awaited::Awaited;
pub use part::{IoPart, Stream};
