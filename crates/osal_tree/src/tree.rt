//! The tree.
mod change;
mod look;

ghost use Rattle.osal_tree.specs.Sound.{MapOf, MapOf-prop};

use crate::slots::Slots;
use osal_base::OutOfMemory;
use std::alloc::Global;
use std::marker::Model;

/// The names and directories of a volume, of at most 256 nodes below the root, with a number for each file.
///
/// A name is found by comparing with each of 256 slots, for each part of its path.
#[derive(Drop)]
pub struct Tree {
    slots: Slots,
    ghost nodes: { MapOf slots } by { MapOf-prop slots },
}

impl Model for Tree {
    ghost use Rattle.osal_tree.specs.Nodes.{Nodes};
    ghost use Rattle.osal_tree.specs.Code.{nodes_code};
    ghost use Rattle.osal_tree.specs.Sound.{Sound};

    ghost Value = { Nodes };

    ghost coded = { nodes_code };

    ghost view = { λ a. a.nodes.0 };

    ghost invariant = { λ a. Sound a.slots a.nodes.0 };
}

impl Tree {
    ghost use Rattle.std.specs.Prelude.{◌≡◌, IfOk};
    ghost use Rattle.std.specs.FinMap as map;

    /// A tree of the root alone. It takes all memory that is ever needed, but for the answers of `list`.
    pub fn new(alloc: Global) -> Result<Tree, OutOfMemory>
        ensures { IfOk result (λ made. made ≡ map.empty) }
    {
        let slots = Slots::new(alloc)?;
        Ok(Tree { slots })
    }
}
