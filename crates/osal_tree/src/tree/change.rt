//! The calls that change a tree.
use super::Tree;
use crate::kind::TreeFault;
use crate::node::Sort;
use crate::slots::done;
use osal_base::Name;

impl Tree {
    ghost use Rattle.std.specs.Prelude.{◌≡◌, IfOk, IfErr, Some};
    ghost use Rattle.osal_tree.specs.Steps.{making_fault, IsCreated, mkdir_step, remove_step, rmdir_step, rename_step};

    /// Makes a file without bytes, and gives it a number that no other file has. It takes no memory.
    pub fn create(&mut self, at: &[Name]) -> Result<u8, TreeFault>
        ensures made { IfOk result (λ number. IsCreated self.old at.now number self.new) }
        ensures refused { IfErr result (λ why. (making_fault self.old at.now ≡ Some why) × (self.new ≡ self.old)) }
    {
        let Some((name, above)) = at.split_last() else {
            return Err(TreeFault::Exists);
        };
        self.slots.make(above, name, Sort::File)
    }

    /// Makes a directory. It takes no memory.
    pub fn mkdir(&mut self, at: &[Name]) -> Result<(), TreeFault>
        ensures { (result, self.new) ≡ mkdir_step self.old at.now }
    {
        let Some((name, above)) = at.split_last() else {
            return Err(TreeFault::Exists);
        };
        done(self.slots.make(above, name, Sort::Directory))
    }

    /// Takes a file away, and gives the number that it had. It takes no memory.
    pub fn remove(&mut self, at: &[Name]) -> Result<u8, TreeFault>
        ensures { (result, self.new) ≡ remove_step self.old at.now }
    {
        self.slots.remove_file(at)
    }

    /// Takes an empty directory away. It takes no memory.
    pub fn rmdir(&mut self, at: &[Name]) -> Result<(), TreeFault>
        ensures { (result, self.new) ≡ rmdir_step self.old at.now }
    {
        done(self.slots.remove_directory(at))
    }

    /// Moves a file, or a directory with all that is below it. It takes no memory.
    pub fn rename(&mut self, from: &[Name], to: &[Name]) -> Result<(), TreeFault>
        ensures { (result, self.new) ≡ rename_step self.old from.now to.now }
    {
        if let Some(fault) = self.rename_fault(from, to) {
            return Err(fault);
        }
        let Some((name, above)) = to.split_last() else {
            return Err(TreeFault::WrongKind);
        };
        self.slots.rename(from, above, name);
        Ok(())
    }
}
