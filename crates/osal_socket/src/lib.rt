//! Sockets in the process: connections of two streams of bytes, and datagrams.
#![tactic(auto)]

mod connection;
mod datagrams;
mod net;
mod pending;
mod side;
mod socket;

pub use net::Net;
