//! A node in its slot.
ghost use Rattle.std.specs.Prelude.{◌≡◌};
ghost use Rattle.osal_tree.specs.Slots.{same_place, is_at, is_in};
ghost use Rattle.osal_tree.specs.SlotSteps.{rehomed};

use osal_base::Name;

/// Where a node lies: below the root, or in the directory of a slot.
#[derive(Clone, Copy, Debug, PartialEq, Eq)]
pub(crate) enum Place {
    Root,
    Slot(u8),
}

/// Whether a node is a directory or a file.
#[derive(Clone, Copy, Debug, PartialEq, Eq)]
pub(crate) enum Sort {
    Directory,
    File,
}

/// A node: its directory, its name there, and its sort.
#[derive(Drop)]
pub(crate) struct Node {
    pub(crate) home: Place,
    pub(crate) name: Name,
    pub(crate) sort: Sort,
}

impl Place {
    pub(crate) fn is_same(self, other: Place) -> bool
        ensures { result ≡ same_place self other }
    {
        match self {
            Place::Root => match other {
                Place::Root => true,
                Place::Slot(_) => false,
            },
            Place::Slot(mine) => match other {
                Place::Root => false,
                Place::Slot(theirs) => mine == theirs,
            },
        }
    }
}

/// Whether a slot has the node with that name in that directory.
pub(crate) fn is_at(slot: &Option<Node>, home: Place, name: &Name) -> bool
    ensures { result ≡ is_at home name.now slot.now }
{
    match slot {
        None => false,
        Some(node) => node.home.is_same(home) && node.name.as_slice() == name.as_slice(),
    }
}

/// Whether a slot has a node in that directory.
pub(crate) fn is_in(slot: &Option<Node>, home: Place) -> bool
    ensures { result ≡ is_in home slot.now }
{
    match slot {
        None => false,
        Some(node) => node.home.is_same(home),
    }
}

/// Puts the node of a slot under another name, into another directory.
pub(crate) fn rehome(slot: &mut Option<Node>, home: Place, name: Name)
    ensures { slot.new ≡ rehomed home name slot.old }
{
    if let Some(node) = slot {
        node.home = home;
        node.name = name;
    }
}
