//! The bytes of a volume's files, on blocks of 512 bytes.
#![tactic(auto)]

mod blocks;
mod bytes;
mod chains;
mod ends;

pub use blocks::{Blocks, blocks_for};
