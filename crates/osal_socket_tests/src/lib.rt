//! Tests of sockets, and of sets of streams.
#![tactic(auto)]

#[cfg(test)]
mod fixture;
#[cfg(test)]
mod rows;
#[cfg(test)]
mod sets;
