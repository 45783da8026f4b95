//! Tests of the crates of storage.
#![tactic(auto)]

#[cfg(test)]
mod mounts;
#[cfg(test)]
mod paths;
#[cfg(test)]
mod volumes;
