//! What the calls of a tree do to its slots.
ghost use Rattle.std.specs.Prelude.{◌≡◌, Some};
ghost use Rattle.osal_tree.specs.declared.node.Place.TheVariants as place;
ghost use Rattle.osal_tree.specs.Slots.{reach};
ghost use Rattle.osal_tree.specs.SlotSteps.{slot_make, file_removed, directory_removed, clearing_fault, slot_rename};

use super::Slots;
use crate::kind::{Kind, TreeFault};
use crate::node::{Node, Place, Sort};
use osal_base::Name;

impl Slots {
    /// Makes a node in the directory that a path leads to, and gives its slot.
    pub(crate) fn make(&mut self, above: &[Name], name: &Name, sort: Sort) -> Result<u8, TreeFault>
        ensures { (result, self.new) ≡ slot_make self.old above.now name.now sort }
    {
        let home = self.directory(above).ok_or(TreeFault::NotFound)?;
        if self.child(home, name).is_some() {
            return Err(TreeFault::Exists);
        }
        let slot = self.free_slot().ok_or(TreeFault::NoSpace)?;
        let name = name.copied();
        self.put(slot, Some(Node { home, name, sort }));
        Ok(slot)
    }

    /// Frees the slot of the file that a path leads to, and gives it.
    pub(crate) fn remove_file(&mut self, at: &[Name]) -> Result<u8, TreeFault>
        ensures { (result, self.new) ≡ file_removed self.old (reach self.old at.now) }
    {
        match self.reach(at) {
            None => Err(TreeFault::NotFound),
            Some(Place::Root) => Err(TreeFault::WrongKind),
            Some(Place::Slot(slot)) => self.free_file(slot),
        }
    }

    fn free_file(&mut self, slot: u8) -> Result<u8, TreeFault>
        ensures { (result, self.new) ≡ file_removed self.old (Some (place.Slot slot)) }
    {
        match self.kind_at(Place::Slot(slot)) {
            None => Err(TreeFault::NotFound),
            Some(Kind::Directory) => Err(TreeFault::WrongKind),
            Some(Kind::File(_)) => {
                self.put(slot, None);
                Ok(slot)
            }
        }
    }

    /// Frees the slot of the empty directory that a path leads to, and gives it.
    pub(crate) fn remove_directory(&mut self, at: &[Name]) -> Result<u8, TreeFault>
        ensures { (result, self.new) ≡ directory_removed self.old (reach self.old at.now) }
    {
        match self.reach(at) {
            None => Err(TreeFault::NotFound),
            Some(Place::Root) => Err(TreeFault::WrongKind),
            Some(Place::Slot(slot)) => {
                if let Some(fault) = self.fault_of_clearing(slot) {
                    return Err(fault);
                }
                self.put(slot, None);
                Ok(slot)
            }
        }
    }

    fn fault_of_clearing(&self, slot: u8) -> Option<TreeFault>
        ensures { result ≡ clearing_fault self.now slot }
    {
        match self.kind_at(Place::Slot(slot)) {
            Some(Kind::Directory) => {}
            _ => return Some(TreeFault::WrongKind),
        }
        if self.has_child(Place::Slot(slot)) {
            return Some(TreeFault::NotEmpty);
        }
        None
    }

    /// Puts the node that one path leads to into the directory that another leads to, under a name.
    pub(crate) fn rename(&mut self, from: &[Name], above: &[Name], name: &Name)
        ensures { self.new ≡ slot_rename self.old (reach self.old from.now) (reach self.old above.now) name.now }
    {
        let Some(Place::Slot(slot)) = self.reach(from) else {
            return;
        };
        let Some(home) = self.reach(above) else {
            return;
        };
        self.rehome(slot, home, name.copied());
    }
}
