//! The calls on files and directories.
use super::Volume;
use super::find::file_number;
use crate::fault::{VolFault, answered, vol_fault};
use osal_base::{Name, Room};

impl Volume {
    ghost use Rattle.std.specs.Prelude.{◌≡◌, ◌≤◌, length, IfOk, IfErr, Ok, Err};
    ghost use Rattle.osal_volume.specs.Volume.{content_at};
    ghost use Rattle.osal_volume.specs.Steps.{read_step, write_step, truncate_step};
    ghost use Rattle.osal_volume.specs.Steps.{create_step, mkdir_step, remove_step, rmdir_step};

    /// Leaves in the room the bytes of a file from a place on, at most `n` of them, and says how many they are.
    ///
    /// Past the end there are none.
    pub fn read(&self, at: &[Name], place: u32, n: u32, room: &mut Room) -> Result<u32, VolFault>
        requires { n ≤ 1024 }
        ensures bytes { IfOk result (λ count.
            (read_step (content_at self.now at.now) place n ≡ Ok room.new) × (count ≡ length room.new)) }
        ensures refused { IfErr result (λ why.
            (read_step (content_at self.now at.now) place n ≡ Err why) × (room.new ≡ room.old)) }
    {
        match file_number(&self.tree, at) {
            Err(fault) => Err(fault),
            Ok(number) => Ok(self.blocks.read(number, place, n, room)),
        }
    }

    /// Makes a file without bytes. It takes no block.
    pub fn create(&mut self, at: &[Name]) -> Result<(), VolFault>
        ensures { (result, self.new) ≡ create_step self.old at.now }
    {
        answered(self.tree.create(at))
    }

    /// Makes a directory. It takes a block.
    pub fn mkdir(&mut self, at: &[Name]) -> Result<(), VolFault>
        ensures { (result, self.new) ≡ mkdir_step self.old at.now }
    {
        if let Some(fault) = self.tree.making_fault(at) {
            return Err(vol_fault(fault));
        }
        if self.blocks.free() == 0 {
            return Err(VolFault::NoSpace);
        }
        self.blocks.reserve();
        let _ = self.tree.mkdir(at);
        Ok(())
    }

    /// Takes all bytes of a file away, and gives its blocks back.
    pub fn truncate(&mut self, at: &[Name]) -> Result<(), VolFault>
        ensures { (result, self.new) ≡ truncate_step self.old at.now }
    {
        match file_number(&self.tree, at) {
            Err(fault) => Err(fault),
            Ok(number) => {
                self.blocks.truncate(number);
                Ok(())
            }
        }
    }

    /// Takes a file away, and gives its blocks back.
    pub fn remove(&mut self, at: &[Name]) -> Result<(), VolFault>
        ensures { (result, self.new) ≡ remove_step self.old at.now }
    {
        match file_number(&self.tree, at) {
            Err(fault) => Err(fault),
            Ok(number) => {
                let _ = self.tree.remove(at);
                self.blocks.truncate(number);
                Ok(())
            }
        }
    }

    /// Takes an empty directory away, and gives its block back.
    pub fn rmdir(&mut self, at: &[Name]) -> Result<(), VolFault>
        ensures { (result, self.new) ≡ rmdir_step self.old at.now }
    {
        match self.tree.rmdir(at) {
            Err(fault) => Err(vol_fault(fault)),
            Ok(()) => {
                self.blocks.unreserve();
                Ok(())
            }
        }
    }

    /// Writes the most bytes of a payload that fit over those of a file, and says how many they are.
    ///
    /// Bytes between the end of the file and the place become zero bytes, and need blocks too.
    pub fn write(&mut self, at: &[Name], place: u32, payload: &[u8]) -> Result<u32, VolFault>
        requires some { 1 ≤ length payload.now }
        requires few { length payload.now ≤ 4096 }
        ensures { (result, self.new) ≡ write_step self.old at.now place payload.now }
    {
        match file_number(&self.tree, at) {
            Err(fault) => Err(fault),
            Ok(number) => {
                let count = self.blocks.write(number, place, payload);
                if count == 0 {
                    return Err(VolFault::NoSpace);
                }
                Ok(count)
            }
        }
    }
}
