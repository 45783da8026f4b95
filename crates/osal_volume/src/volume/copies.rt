//! Copies of files.

use super::Volume;
use super::find::{file_number, is_one_file, parent_of};
use crate::fault::{Kind, VolFault};
use osal_base::Name;
use osal_blocks::blocks_for;
use osal_tree::Kind as Node;

impl Volume {
    ghost use Rattle.std.specs.Prelude.{◌≡◌, List, ℕ, length, false, Option};
    ghost use Rattle.osal_tree.specs.Paths.{parent_of};
    ghost use Rattle.osal_volume.specs.Volume.{Content, Bytes, content_at, kind_of, is_directory, with_node};
    ghost use Rattle.osal_volume.specs.Copies.{is_overfull, placing_fault, copy_step, copy_from_step};

    /// Makes a file with the bytes of another, or gives one that stands there these bytes in place of its own.
    ///
    /// The blocks that such a file has count as free ones. Each byte is copied once.
    pub fn copy(&mut self, from: &[Name], to: &[Name]) -> Result<(), VolFault>
        ensures { (result, self.new) ≡ copy_step self.old from.now to.now }
    {
        let same = is_one_file(&self.tree, from, to);
        if let Some(fault) = self.placing_fault(self.kind(from), same, to) {
            return Err(fault);
        }
        let source = file_number(&self.tree, from)?;
        let _ = self.tree.create(to);
        let target = file_number(&self.tree, to)?;
        self.blocks.copy(source, target);
        Ok(())
    }

    /// The same with the bytes of a file of another volume.
    pub fn copy_from(&mut self, other: &Volume, from: &[Name], to: &[Name]) -> Result<(), VolFault>
        ensures { (result, self.new) ≡ copy_from_step self.old other.now from.now to.now }
    {
        if let Some(fault) = self.placing_fault(other.kind(from), false, to) {
            return Err(fault);
        }
        let source = file_number(&other.tree, from)?;
        let _ = self.tree.create(to);
        let target = file_number(&self.tree, to)?;
        self.blocks.copy_from(&other.blocks, source, target);
        Ok(())
    }

    // Why a copy of what is of a kind may not come to stand at a path.
    pub(super) fn placing_fault(
        &self,
        source: Option<Kind>,
        same: bool,
        to: &[Name],
    ) -> Option<VolFault>
        ensures { (there : Option Content) → source ≡ kind_of there → result ≡ placing_fault self.now to.now same there }
    {
        let Some(kind) = source else {
            return Some(VolFault::NotFound);
        };
        if !self.has_home(to) {
            return Some(VolFault::NotFound);
        }
        let Kind::File(size) = kind else {
            return Some(VolFault::WrongKind);
        };
        if same {
            return Some(VolFault::WrongKind);
        }
        if self.tree.is_directory(to) {
            return Some(VolFault::WrongKind);
        }
        if self.is_overfull_with(size, to) {
            return Some(VolFault::NoSpace);
        }
        None
    }

    // Whether what a path stands in is a directory.
    fn has_home(&self, at: &[Name]) -> bool
        ensures { result ≡ is_directory (content_at self.now (parent_of at.now)) }
    {
        self.tree.is_directory(parent_of(at))
    }

    // Whether there are too many blocks or nodes once a file of so many bytes stands at a path.
    fn is_overfull_with(&self, size: u32, at: &[Name]) -> bool
        ensures { (bytes : List ℕ) → size ≡ length bytes → is_directory (content_at self.now at.now) ≡ false →
            result ≡ is_overfull (with_node self.now at.now (Bytes bytes)) }
    {
        match self.tree.kind(at) {
            Some(Node::File(number)) => {
                let own = self.blocks.length(usize::from(number));
                blocks_for(size) > self.blocks.free() + blocks_for(own)
            }
            Some(Node::Directory) => false,
            None => self.tree.count() >= 256 || blocks_for(size) > self.blocks.free(),
        }
    }
}
