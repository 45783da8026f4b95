//! The names in a directory.
ghost use Rattle.std.specs.Prelude.{◌≡◌, ◌≤◌, length, IfOk, IfErr, IfSome, None, []};
ghost use Rattle.osal_tree.specs.Slots.{look, reach};
ghost use Rattle.osal_tree.specs.Listing.{listing_fault, or_memory};
ghost use Rattle.osal_tree.specs.Gathering.{put, inserted, added, gathered, names_at};

use super::Slots;
use crate::kind::{Kind, TreeFault};
use crate::node::{Node, Place};
use osal_base::{Name, OutOfMemory};
use std::alloc::Global;
use std::cmp::Ordering;

impl Slots {
    /// The names in the directory that a path leads to.
    pub(crate) fn list(&self, alloc: Global, at: &[Name]) -> Result<Vec<Name>, TreeFault>
        ensures listed { IfOk result (λ names.
            (listing_fault (look self.now at.now) ≡ None) × (names.items ≡ names_at self.now (reach self.now at.now))) }
        ensures refused { IfErr result (λ why. why ≡ or_memory (listing_fault (look self.now at.now))) }
    {
        let Some(home) = self.reach(at) else {
            return Err(TreeFault::NotFound);
        };
        match self.kind_at(home) {
            None => Err(TreeFault::NotFound),
            Some(Kind::File(_)) => Err(TreeFault::WrongKind),
            Some(Kind::Directory) => match names_in(alloc, self.slots.as_slice(), home) {
                Ok(names) => Ok(names),
                Err(_) => Err(TreeFault::OutOfMemory),
            },
        }
    }
}

fn names_in(alloc: Global, slots: &[Option<Node>], home: Place) -> Result<Vec<Name>, OutOfMemory>
    ensures { IfOk result (λ names. names.items ≡ gathered home [] slots.now) }
{
    let mut names = Vec::new(alloc);
    for slot in slots {
        add(&mut names, slot, home)?;
    }
    Ok(names)
}

fn add(names: &mut Vec<Name>, slot: &Option<Node>, home: Place) -> Result<(), OutOfMemory>
    ensures { IfOk result (λ _. names.new.items ≡ added home names.old.items slot.now) }
{
    match slot {
        None => Ok(()),
        Some(node) => {
            if node.home.is_same(home) {
                return put(names, &node.name);
            }
            Ok(())
        }
    }
}

// Puts a name before the first that comes after it, where it is not there.
fn put(names: &mut Vec<Name>, name: &Name) -> Result<(), OutOfMemory>
    ensures { IfOk result (λ _. names.new.items ≡ put name.now names.old.items) }
{
    if let Some(place) = place_for(names.as_slice(), name) {
        names.insert(place, name.copied())?;
    }
    Ok(())
}

// Where a name belongs, unless it is there.
fn place_for(names: &[Name], name: &Name) -> Option<usize>
    ensures value { put name.now names.now ≡ inserted name.now names.now result }
    ensures within { IfSome result (λ place. place ≤ length names.now) }
{
    for i in 0..names.len() {
        match name.as_slice().cmp(names[i].as_slice()) {
            Ordering::Less => return Some(i),
            Ordering::Equal => return None,
            Ordering::Greater => {}
        }
    }
    Some(names.len())
}
