//! How the bytes of files change.
ghost use Rattle.std.specs.Prelude.{◌≡◌, ◌≢◌, ◌<◌, ◌≤◌, ◌+◌, ◌-◌, ◌*◌, [], length, take, replicate, max};
ghost use Rattle.osal_blocks.specs.Blocks.{IsSound, blocks_for, blocks_of, bytes_of};
ghost use Rattle.osal_blocks.specs.Blocks.{fitting, free, overwritten, with_file};
ghost use Rattle.osal_blocks.specs.Chains.{IsApart, Moved, blocks_at};
ghost use Rattle.osal_blocks.specs.Sound.{CanGrow};

use super::{Blocks, blocks_for};
use crate::bytes;
use crate::chains::Chains;

impl Blocks {
    /// Writes the first bytes of a payload over those of a file from a place on, as many as there are blocks for, and
    /// says how many they are.
    ///
    /// Bytes between the end of the file and the place become zero bytes. Each byte is written once.
    pub fn write(&mut self, file: usize, place: u32, payload: &[u8]) -> u32
        requires file { file < 256 }
        requires few { length payload.now ≤ 4096 }
        ensures count { result ≡ fitting self.old file place (length payload.now) }
        ensures none { result ≡ 0 → self.new ≡ self.old }
        ensures bytes { 0 < result → self.new ≡ with_file self.old file
            (overwritten (bytes_of self.old file) place (take result payload.now)) }
    {
        let count = self.fitting(file, place, payload.len() as u32);
        if count > 0 {
            self.pad(file, place);
            self.put(file, place, &payload[..count as usize]);
        }
        count
    }

    /// Takes all bytes of a file away, and gives its blocks back one by one.
    pub fn truncate(&mut self, file: usize)
        requires { file < 256 }
        ensures bytes { self.new ≡ with_file self.old file [] }
        ensures free { free self.new ≡ free self.old + blocks_of (bytes_of self.old file) }
        ensures sound { IsSound self.new }
    {
        let count = self.chains.count(file);
        self.chains.transfer(file, Chains::FREE, count);
        self.lengths[file] = 0;
    }

    /// Gives a file the bytes of another in place of its own.
    pub fn copy(&mut self, from: usize, to: usize)
        requires from { from < 256 }
        requires to { to < 256 }
        requires two { from ≢ to }
        requires room { blocks_of (bytes_of self.old from) ≤ free self.old + blocks_of (bytes_of self.old to) }
        ensures { self.new ≡ with_file self.old to (bytes_of self.old from) }
    {
        self.truncate(to);
        self.fill(from, to);
    }

    /// Gives a file the bytes of a file of other blocks in place of its own.
    pub fn copy_from(&mut self, other: &Blocks, from: usize, to: usize)
        requires from { from < 256 }
        requires to { to < 256 }
        requires room { blocks_of (bytes_of other.now from) ≤ free self.old + blocks_of (bytes_of self.old to) }
        ensures { self.new ≡ with_file self.old to (bytes_of other.now from) }
    {
        self.truncate(to);
        self.fill_from(other, from, to);
    }

    // How many bytes of so many can be written to a file at a place.
    fn fitting(&self, file: usize, place: u32, count: u32) -> u32
        requires { file < 256 }
        ensures value { result ≡ fitting self.now file place count }
        ensures sound { IsSound self.now }
    {
        let most = (self.free() + self.chains.count(file)) * bytes::BLOCK as u32;
        most.saturating_sub(place).min(count)
    }

    // Gives a file without bytes those of another.
    fn fill(&mut self, from: usize, to: usize)
        requires from { from < 256 }
        requires to { to < 256 }
        requires two { from ≢ to }
        requires empty { bytes_of self.old to ≡ [] }
        requires room { blocks_of (bytes_of self.old from) ≤ free self.old }
        ensures { self.new ≡ with_file self.old to (bytes_of self.old from) }
    {
        let length = self.lengths[from];
        grow(&mut self.chains, to, 0, length);
        bytes::copy(
            self.store.as_mut_slice(),
            &self.chains,
            from,
            to,
            length as usize,
        );
        self.lengths[to] = length;
    }

    // Gives a file without bytes those of a file of other blocks.
    fn fill_from(&mut self, other: &Blocks, from: usize, to: usize)
        requires from { from < 256 }
        requires to { to < 256 }
        requires empty { bytes_of self.old to ≡ [] }
        requires room { blocks_of (bytes_of other.now from) ≤ free self.old }
        ensures { self.new ≡ with_file self.old to (bytes_of other.now from) }
    {
        let length = other.lengths[from];
        grow(&mut self.chains, to, 0, length);
        let count = length as usize;
        bytes::copy_from(
            self.store.as_mut_slice(),
            &self.chains,
            to,
            other.store.as_slice(),
            &other.chains,
            from,
            count,
        );
        self.lengths[to] = length;
    }

    // Puts zero bytes behind those of a file, up to a place.
    fn pad(&mut self, file: usize, place: u32)
        requires file { file < 256 }
        requires room { blocks_for place ≤ free self.old + blocks_of (bytes_of self.old file) }
        ensures { self.new ≡ with_file self.old file (overwritten (bytes_of self.old file) place []) }
    {
        let length = self.lengths[file];
        if length < place {
            grow(&mut self.chains, file, length, place);
            bytes::wipe(
                self.store.as_mut_slice(),
                &self.chains,
                file,
                length as usize,
                (place - length) as usize,
            );
            self.lengths[file] = place;
        }
    }

    // Writes a piece over the bytes of a file, from a place that is none past its end.
    fn put(&mut self, file: usize, place: u32, piece: &[u8])
        requires file { file < 256 }
        requires place { place ≤ length (bytes_of self.old file) }
        requires small { place + length piece.now ≤ 2097152 }
        requires room { blocks_for (place + length piece.now) ≤ free self.old + blocks_of (bytes_of self.old file) }
        ensures { self.new ≡ with_file self.old file (overwritten (bytes_of self.old file) place piece.now) }
    {
        let length = self.lengths[file];
        let longer = length.max(place + piece.len() as u32);
        grow(&mut self.chains, file, length, longer);
        bytes::lay(
            self.store.as_mut_slice(),
            &self.chains,
            file,
            place as usize,
            piece,
        );
        self.lengths[file] = longer;
    }
}

// Gives a file that has so many bytes the blocks for more.
fn grow(chains: &mut Chains, file: usize, bytes: u32, longer: u32)
    requires file { file < 256 }
    requires can { CanGrow chains.old file bytes longer }
    ensures moved { Moved chains.old chains.new 256 file (blocks_for longer - blocks_for bytes) }
    ensures apart { IsApart chains.new }
    ensures count { length (blocks_at chains.new file) ≡ blocks_for longer }
{
    chains.transfer(Chains::FREE, file, blocks_for(longer) - blocks_for(bytes));
}
