//! Which blocks each file has, and which are free.
ghost use Rattle.std.specs.Prelude.{◌≡◌, ◌≢◌, ◌<◌, ◌≤◌, ◌+◌, [], ℕ, length, slice_index, IfOk};
ghost use Rattle.osal_blocks.specs.Chains.{AllFree, InARow, IsApart, IsThreaded, Moved, blocks_at, chains_in, walk};

use crate::ends::{Ends, ends_at, shift};
use osal_base::OutOfMemory;
use std::alloc::Global;
use std::marker::Model;

/// The list of each file's blocks, and the list of the free ones.
///
/// A list takes no memory of its own: beside each block stands the number of the block behind it.
#[derive(Drop)]
pub(crate) struct Chains {
    next: Vec<u16>,
    ends: Vec<Ends>,
}

impl Model for Chains {
    ghost use Rattle.osal_blocks.specs.Chains.{ChainsState, IsThreaded, chains_in};

    ghost Value = { ChainsState };

    ghost view = { λ a. chains_in a.next.items a.ends.items };

    ghost invariant = { λ a. IsThreaded a.next.items a.ends.items };
}

impl Chains {
    /// The number of the list of free blocks.
    pub(crate) const FREE: usize = 256;

    /// All blocks are free.
    pub(crate) fn new(alloc: Global, total: u32) -> Result<Chains, OutOfMemory>
        requires some { 1 ≤ total }
        requires few { total ≤ 4096 }
        ensures total { IfOk result (λ chains. chains.total ≡ total) }
        ensures files { IfOk result (λ chains. (file : ℕ) → file < 256 → blocks_at chains file ≡ []) }
        ensures free { IfOk result (λ chains. length (blocks_at chains 256) ≡ total) }
    {
        let next = in_a_row(alloc, total as u16)?;
        let ends = all_free(alloc, total as u16)?;
        Ok(Chains { next, ends })
    }

    /// How many blocks there are.
    pub(crate) fn total(&self) -> u32
        ensures value { result ≡ self.now.total }
        ensures apart { IsApart self.now }
    {
        self.next.len() as u32
    }

    /// How many blocks a list has. They are counted as they come and go.
    pub(crate) fn count(&self, list: usize) -> u32
        requires { list < 257 }
        ensures { result ≡ length (blocks_at self.now list) }
    {
        u32::from(ends_at(self.ends.as_slice(), list).count)
    }

    /// The block at a place in a list, and any block behind its end. It walks there.
    pub(crate) fn at(&self, list: usize, place: usize) -> usize
        requires list { list < 257 }
        requires place { place ≤ length (blocks_at self.now list) }
        ensures value { place < length (blocks_at self.now list)
            → result ≡ slice_index (blocks_at self.now list) place }
        ensures apart { IsApart self.now }
    {
        let first = ends_at(self.ends.as_slice(), list).first;
        walk(self.next.as_slice(), first, place)
    }

    /// The block behind a block, and any block where it is the last of its list.
    pub(crate) fn after(&self, block: usize) -> usize
        requires { block < self.now.total }
        ensures { (list k : ℕ) → k + 1 < length (blocks_at self.now list)
            → slice_index (blocks_at self.now list) k ≡ block
            → result ≡ slice_index (blocks_at self.now list) (k + 1) }
    {
        usize::from(self.next[block])
    }

    /// Puts the first blocks of a list, so many as `count` is, behind those of another.
    pub(crate) fn transfer(&mut self, from: usize, to: usize, count: u32)
        requires from { from < 257 }
        requires to { to < 257 }
        requires two { from ≢ to }
        requires there { count ≤ length (blocks_at self.old from) }
        requires room { length (blocks_at self.old to) + count ≤ 4096 }
        ensures moved { Moved self.old self.new from to count }
        ensures apart { IsApart self.new }
    {
        transfer(
            self.next.as_mut_slice(),
            self.ends.as_mut_slice(),
            from,
            to,
            count,
        );
    }
}

// A table where each block stands behind the one before it.
fn in_a_row(alloc: Global, total: u16) -> Result<Vec<u16>, OutOfMemory>
    requires { total ≤ 4096 }
    ensures { IfOk result (λ next. InARow next.items total) }
{
    let mut next = Vec::with_capacity(alloc, usize::from(total))?;
    for block in 0..total {
        next.push(block + 1)?;
    }
    Ok(next)
}

// The ends of lists of which all but the last are without blocks.
fn all_free(alloc: Global, total: u16) -> Result<Vec<Ends>, OutOfMemory>
    requires { 1 ≤ total }
    ensures { IfOk result (λ ends. AllFree ends.items total) }
{
    let mut ends = Vec::with_capacity(alloc, Chains::FREE + 1)?;
    for _file in 0..Chains::FREE {
        ends.push(Ends::none())?;
    }
    ends.push(Ends {
        first: 0,
        last: total - 1,
        count: total,
    })?;
    Ok(ends)
}

// The block that so many steps from a block lead to.
fn walk(next: &[u16], first: u16, steps: usize) -> usize
    requires few { length next.now ≤ 4096 }
    requires within { (k : ℕ) → k < steps → slice_index (walk next.now first steps) k < length next.now }
    ensures { result ≡ slice_index (walk next.now first (steps + 1)) steps }
{
    let mut block = usize::from(first);
    for _step in 0..steps {
        block = usize::from(next[block]);
    }
    block
}

fn transfer(next: &mut [u16], ends: &mut [Ends], from: usize, to: usize, count: u32)
    requires from { from < 257 }
    requires to { to < 257 }
    requires two { from ≢ to }
    requires there { count ≤ length (blocks_at (chains_in next.old ends.old) from) }
    requires room { length (blocks_at (chains_in next.old ends.old) to) + count ≤ 4096 }
    requires threaded { IsThreaded next.old ends.old }
    ensures moved { Moved (chains_in next.old ends.old) (chains_in next.new ends.new) from to count }
    ensures threaded { IsThreaded next.new ends.new }
{
    for _moved in 0..count {
        shift(next, ends, from, to);
    }
}
