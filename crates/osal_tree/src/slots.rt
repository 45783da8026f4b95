//! The slots behind a tree.
ghost use Rattle.std.specs.Prelude.{◌≡◌, ◌≤◌, length, replicate, IfOk, None, Some, slice_set, slice_index_or};
ghost use Rattle.std.specs.List.{list_any};
ghost use Rattle.osal_tree.specs.Slots.{child, reach, look, kind_at, kind_of, is_in, free_slot};
ghost use Rattle.osal_tree.specs.Sound.{taken};
ghost use Rattle.osal_tree.specs.SlotSteps.{directory, done, rehomed};

mod change;
mod names;
mod scan;

use crate::kind::{Kind, TreeFault};
use crate::node::{Node, Place, Sort, rehome};
use osal_base::{Name, OutOfMemory};
use scan::{any_in, count_taken, first_at, first_free, free_slots};
use std::alloc::Global;
use std::marker::Model;

/// The slots of a tree, seen as the list of them: at most one node in each.
#[derive(Drop)]
pub(crate) struct Slots {
    slots: Vec<Option<Node>>,
}

impl Model for Slots {
    ghost use Rattle.std.specs.Prelude.{◌≡◌, List, length};
    ghost use Rattle.std.specs.declared.option.Option.{Option};
    ghost use Rattle.osal_tree.specs.declared.node.Node.{Node};

    ghost Value = { List (Option Node) };

    ghost view = { λ a. a.slots.items };

    ghost invariant = { λ a. length a.slots.items ≡ 256 };
}

impl Slots {
    /// Free slots alone.
    pub(crate) fn new(alloc: Global) -> Result<Slots, OutOfMemory>
        ensures { IfOk result (λ made. made ≡ replicate 256 None) }
    {
        let slots = free_slots(alloc)?;
        Ok(Slots { slots })
    }

    /// Where a path leads.
    #[tactic(auto, using(crate::proofs::Walks::walk_none))]
    pub(crate) fn reach(&self, at: &[Name]) -> Option<Place>
        ensures { result ≡ reach self.now at.now }
    {
        let mut home = Place::Root;
        for name in at {
            home = Place::Slot(self.child(home, name)?);
        }
        Some(home)
    }

    /// The slot of the node with that name in that directory.
    pub(crate) fn child(&self, home: Place, name: &Name) -> Option<u8>
        ensures { result ≡ child self.now home name.now }
    {
        first_at(self.slots.as_slice(), home, name)
    }

    /// What stands at a place.
    pub(crate) fn kind_at(&self, home: Place) -> Option<Kind>
        ensures { result ≡ kind_at self.now (Some home) }
    {
        match home {
            Place::Root => Some(Kind::Directory),
            Place::Slot(slot) => match &self.slots[usize::from(slot)] {
                None => None,
                Some(node) => Some(kind_of(slot, node.sort)),
            },
        }
    }

    /// What stands at a path.
    pub(crate) fn look(&self, at: &[Name]) -> Option<Kind>
        ensures { result ≡ look self.now at.now }
    {
        let home = self.reach(at)?;
        self.kind_at(home)
    }

    /// How many slots have a node.
    pub(crate) fn count(&self) -> u32
        ensures { result ≡ taken self.now }
    {
        count_taken(self.slots.as_slice())
    }

    /// The place of the directory that a path leads to.
    pub(crate) fn directory(&self, at: &[Name]) -> Option<Place>
        ensures { result ≡ directory self.now at.now }
    {
        let home = self.reach(at)?;
        match self.kind_at(home) {
            Some(Kind::Directory) => Some(home),
            _ => None,
        }
    }

    /// Whether something stands in the directory of a place.
    pub(crate) fn has_child(&self, home: Place) -> bool
        ensures { result ≡ list_any (is_in home) self.now }
    {
        any_in(self.slots.as_slice(), home)
    }

    /// The first slot that is free.
    pub(crate) fn free_slot(&self) -> Option<u8>
        ensures { result ≡ free_slot self.now }
    {
        first_free(self.slots.as_slice())
    }

    // Puts another content into a slot.
    fn put(&mut self, slot: u8, content: Option<Node>)
        ensures { self.new ≡ slice_set self.old slot content }
    {
        self.slots[usize::from(slot)] = content;
    }

    // Puts the node of a slot under another name, into another directory.
    fn rehome(&mut self, slot: u8, home: Place, name: Name)
        ensures { self.new ≡ slice_set self.old slot (rehomed home name (slice_index_or self.old slot None)) }
    {
        rehome(&mut self.slots[usize::from(slot)], home, name);
    }
}

/// What a node of a sort in a slot is.
fn kind_of(slot: u8, sort: Sort) -> Kind
    ensures { result ≡ kind_of slot sort }
{
    match sort {
        Sort::Directory => Kind::Directory,
        Sort::File => Kind::File(slot),
    }
}

/// An answer without its number.
pub(crate) fn done(answer: Result<u8, TreeFault>) -> Result<(), TreeFault>
    ensures { result ≡ done answer }
{
    answer?;
    Ok(())
}
