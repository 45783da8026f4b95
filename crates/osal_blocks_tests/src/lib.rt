//! Tests of the storage of a volume.
#![tactic(auto)]

#[cfg(test)]
mod blocks;
