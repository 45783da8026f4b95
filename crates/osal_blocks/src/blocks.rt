//! The blocks of a volume.
ghost use Rattle.std.specs.Prelude.{◌≡◌, ◌≢◌, ◌<◌, ◌≤◌, ◌+◌, ◌-◌, ◌*◌, [], length, take, drop, min, replicate, IfOk};
ghost use Rattle.osal_blocks.specs.Blocks.{IsEmpty, IsSound, blocks_for, blocks_of, bytes_of, free, with_reserved};

mod change;

use crate::bytes;
use crate::chains::Chains;
use osal_base::{OutOfMemory, Room};
use std::alloc::Global;
use std::marker::Model;

/// The bytes of 256 files, by their numbers, on blocks of 512 bytes.
///
/// The memory for all blocks is taken when it is made, and never again.
#[derive(Drop)]
pub struct Blocks {
    store: Vec<u8>,
    chains: Chains,
    lengths: Vec<u32>,
    reserved: u32,
}

impl Model for Blocks {
    ghost use Rattle.osal_blocks.specs.Blocks.{BlocksState};
    ghost use Rattle.osal_blocks.specs.Sound.{IsWhole, blocks_in};

    ghost Value = { BlocksState };

    ghost view = { λ a. blocks_in a.store.items a.chains a.lengths.items a.reserved };

    ghost invariant = { λ a. IsWhole a.store.items a.chains a.lengths.items a.reserved };
}

impl Blocks {
    /// How many files there are.
    pub const FILES: usize = 256;

    /// So many free blocks, and no bytes in any file.
    pub fn new(alloc: Global, total: u32) -> Result<Blocks, OutOfMemory>
        requires some { 1 ≤ total }
        requires few { total ≤ 4096 }
        ensures { IfOk result (λ blocks. IsEmpty blocks total) }
    {
        let chains = Chains::new(alloc, total)?;
        let store = vec![in alloc; 0; total as usize * bytes::BLOCK]?;
        let lengths = vec![in alloc; 0; Blocks::FILES]?;
        Ok(Blocks {
            store,
            chains,
            lengths,
            reserved: 0,
        })
    }

    /// How many blocks there are.
    pub fn total(&self) -> u32
        ensures value { result ≡ self.now.total }
        ensures sound { IsSound self.now }
    {
        self.chains.total()
    }

    /// How many blocks can be taken. They are counted, at no cost.
    pub fn free(&self) -> u32
        ensures value { result ≡ free self.now }
        ensures sound { IsSound self.now }
    {
        self.chains.count(Chains::FREE) - self.reserved
    }

    /// Takes a block for a directory.
    pub fn reserve(&mut self)
        requires { 0 < free self.old }
        ensures { self.new ≡ with_reserved self.old (self.old.reserved + 1) }
    {
        self.reserved += 1;
    }

    /// Gives a block of a directory back.
    pub fn unreserve(&mut self)
        requires { 0 < self.old.reserved }
        ensures { self.new ≡ with_reserved self.old (self.old.reserved - 1) }
    {
        self.reserved -= 1;
    }

    /// How many bytes a file has.
    pub fn length(&self, file: usize) -> u32
        requires { file < 256 }
        ensures { result ≡ length (bytes_of self.now file) }
    {
        self.lengths[file]
    }

    /// Leaves in the room the bytes of a file from a place on, at most `n` of them, and says how many they are.
    ///
    /// The way to the first of them costs a step for each block before it, and each byte is copied once.
    pub fn read(&self, file: usize, place: u32, n: u32, room: &mut Room) -> u32
        requires file { file < 256 }
        requires few { n ≤ 1024 }
        ensures bytes { room.new ≡ take n (drop place (bytes_of self.now file)) }
        ensures count { result ≡ length room.new }
    {
        room.clear();
        let count = self.length(file).saturating_sub(place).min(n);
        if count > 0 {
            bytes::read(
                self.store.as_slice(),
                &self.chains,
                file,
                place as usize,
                count as usize,
                room,
            );
        }
        count
    }
}

/// How many blocks so many bytes take.
pub fn blocks_for(length: u32) -> u32
    ensures { result ≡ blocks_for length }
{
    length.div_ceil(bytes::BLOCK as u32)
}
