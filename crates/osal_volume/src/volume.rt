//! The volume.
ghost use Rattle.std.specs.Prelude.{◌≡◌, ◌≤◌, IfOk};
ghost use Rattle.osal_volume.specs.Volume.{fresh, free_blocks, kind_of, content_at};

mod change;
mod copies;
mod faults;
mod find;
mod list;
mod rename;

use crate::fault::Kind;
use osal_base::{Name, OutOfMemory};
use osal_blocks::Blocks;
use osal_tree::{Kind as Node, Tree};
use std::alloc::Global;
use std::marker::Model;

/// Files and directories under paths, of at most 256 below the root, on blocks of 512 bytes.
#[derive(Drop)]
pub struct Volume {
    tree: Tree,
    blocks: Blocks,
}

impl Model for Volume {
    ghost use Rattle.osal_volume.specs.Volume.{VolumeState};
    ghost use Rattle.osal_volume.specs.Code.{volume_code};
    ghost use Rattle.osal_volume.specs.Whole.{IsWhole, volume_of};

    ghost Value = { VolumeState };

    ghost coded = { volume_code };

    ghost view = { λ a. volume_of a.tree a.blocks };

    ghost invariant = { λ a. IsWhole a.tree a.blocks };
}

impl Volume {
    /// A volume of the root alone, on so many blocks. It takes all memory that is ever needed, but for lists of names.
    pub fn mkfs(alloc: Global, blocks: u32) -> Result<Volume, OutOfMemory>
        requires some { 1 ≤ blocks }
        requires few { blocks ≤ 4096 }
        ensures { IfOk result (λ made. made ≡ fresh blocks) }
    {
        let tree = Tree::new(alloc)?;
        let blocks = Blocks::new(alloc, blocks)?;
        Ok(Volume { tree, blocks })
    }

    /// How many blocks there are.
    pub fn total(&self) -> u32
        ensures { result ≡ self.now.total }
    {
        self.blocks.total()
    }

    /// How many blocks can be taken.
    pub fn free(&self) -> u32
        ensures { result ≡ free_blocks self.now }
    {
        self.blocks.free()
    }

    /// What stands at a path; no names at all are the root's path.
    pub fn kind(&self, at: &[Name]) -> Option<Kind>
        ensures { result ≡ kind_of (content_at self.now at.now) }
    {
        match self.tree.kind(at) {
            None => None,
            Some(Node::Directory) => Some(Kind::Dir),
            Some(Node::File(number)) => Some(Kind::File(self.blocks.length(usize::from(number)))),
        }
    }
}
