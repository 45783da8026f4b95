//! What a tree tells.
use super::Tree;
use crate::kind::{Kind, TreeFault};
use crate::path::{is_below, parent_of};
use osal_base::Name;
use std::alloc::Global;

impl Tree {
    ghost use Rattle.std.specs.Prelude.{◌≡◌, IfOk, IfErr};
    ghost use Rattle.std.specs.FinMap as map;
    ghost use Rattle.osal_tree.specs.Nodes.{node_at, is_directory, IsTree};
    ghost use Rattle.osal_tree.specs.Steps.{making_fault, rename_fault};
    ghost use Rattle.osal_tree.specs.Listing.{listing_fault, or_memory, IsListing};

    /// How many nodes there are below the root, of the 256 that there may be.
    pub fn count(&self) -> u32
        ensures value { result ≡ map.len self.now }
        ensures tree { IsTree self.now }
    {
        self.slots.count()
    }

    /// What stands at a path; no names at all are the root's path.
    pub fn kind(&self, at: &[Name]) -> Option<Kind>
        ensures value { result ≡ node_at self.now at.now }
        ensures tree { IsTree self.now }
    {
        self.slots.look(at)
    }

    /// The names in a directory, in the order of their bytes. It takes memory for them.
    pub fn list(&self, alloc: Global, at: &[Name]) -> Result<Vec<Name>, TreeFault>
        ensures listed { IfOk result (λ names. IsListing self.now at.now names.items) }
        ensures refused { IfErr result (λ why. why ≡ or_memory (listing_fault (node_at self.now at.now))) }
    {
        self.slots.list(alloc, at)
    }

    /// Why nothing new may stand at a path, where something is in the way.
    pub fn making_fault(&self, at: &[Name]) -> Option<TreeFault>
        ensures { result ≡ making_fault self.now at.now }
    {
        if self.kind(at).is_some() {
            return Some(TreeFault::Exists);
        }
        if !self.is_directory(parent_of(at)) {
            return Some(TreeFault::NotFound);
        }
        if self.count() >= 256 {
            return Some(TreeFault::NoSpace);
        }
        None
    }

    /// Why a node may not be moved, where something is in the way.
    pub fn rename_fault(&self, from: &[Name], to: &[Name]) -> Option<TreeFault>
        ensures { result ≡ rename_fault self.now from.now to.now }
    {
        if self.kind(from).is_none() {
            return Some(TreeFault::NotFound);
        }
        if !self.is_directory(parent_of(to)) {
            return Some(TreeFault::NotFound);
        }
        if from.is_empty() || to.is_empty() || is_below(from, to) {
            return Some(TreeFault::WrongKind);
        }
        if self.kind(to).is_some() {
            return Some(TreeFault::Exists);
        }
        None
    }

    /// Whether a directory stands at a path.
    pub fn is_directory(&self, at: &[Name]) -> bool
        ensures { result ≡ is_directory (node_at self.now at.now) }
    {
        match self.kind(at) {
            Some(Kind::Directory) => true,
            _ => false,
        }
    }
}
