//! Rings of bytes and of messages: what one side puts in and another takes out, each byte copied once on its way in
//! and once on its way out.
#![tactic(auto)]

mod messages;
mod ring;

pub use messages::Messages;
pub use ring::Ring;
