//! Sets of streams that calls carry.
ghost use Rattle.std.specs.Prelude.{◌≡◌, IfOk};

use crate::FdSet;
use osal_base::OutOfMemory;
use std::alloc::Global;
use std::marker::Model;

/// A set of streams on the heap, so that a call that carries it stays small.
///
/// It is seen as the set alone, wherever it lies.
#[derive(Drop)]
pub struct BoxedSet {
    set: Box<FdSet>,
}

impl Model for BoxedSet {
    ghost use Rattle.std.specs.Prelude.{List, ℕ};

    ghost Value = { List ℕ };

    ghost view = { λ a. a.set.value };

    ghost invariant = { λ a. Unit {0} };
}

impl BoxedSet {
    /// The set on the heap.
    pub fn new(alloc: Global, set: FdSet) -> Result<BoxedSet, OutOfMemory>
        ensures { IfOk result (λ boxed. boxed ≡ set) }
    {
        Ok(BoxedSet {
            set: Box::new(alloc, set)?,
        })
    }

    /// The set.
    pub fn set(&self) -> &FdSet
        ensures { result.now ≡ self.now }
    {
        &self.set
    }
}
