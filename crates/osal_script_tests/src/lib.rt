//! Tests of application texts, of what scripts call and of what they cost.
#![tactic(auto)]

#[cfg(test)]
mod costs;
#[cfg(test)]
mod cursor;
#[cfg(test)]
mod files;
#[cfg(test)]
mod sockets;
#[cfg(test)]
mod texts;
