//! The journal: all entries in the order in which they were made.
ghost use Rattle.std.specs.Prelude.{◌≡◌, ◌+◌, ◌≤◌, ◌<◌, [], ◌∷◌, ◌++◌, length, OnOk, slice_get, option_copied};

use crate::Entry;
use osal_base::OutOfMemory;
use std::alloc::Global;
use std::marker::Model;

/// A list of entries, which takes memory only where it is asked to make room.
#[derive(Drop)]
pub struct Journal {
    entries: Vec<Entry>,
}

impl Model for Journal {
    ghost use Rattle.std.specs.Prelude.{◌-◌};
    ghost use Rattle.std.specs.Vec.{vec_len, vec_capacity};
    ghost use Rattle.osal_call.specs.Journal.{Entries};

    ghost Value = { Entries };

    ghost view = { λ a. record { entries = a.entries.items; spare = vec_capacity a.entries - vec_len a.entries } };

    ghost invariant = { λ a. Unit {0} };
}

impl Journal {
    /// No entries. It takes no memory.
    pub fn new(alloc: Global) -> Journal
        ensures { result.entries ≡ [] }
    {
        Journal {
            entries: Vec::new(alloc),
        }
    }

    /// How many entries there are.
    pub fn len(&self) -> u64
        ensures { result ≡ length self.now.entries }
    {
        self.entries.len() as u64
    }

    /// The entry at a position from 0, or none at or past the length.
    pub fn entry(&self, at: u64) -> Option<&Entry>
        ensures { option_copied result ≡ slice_get self.now.entries at }
    {
        self.entries.get(at as usize)
    }

    /// All entries, in order.
    pub fn entries(&self) -> &[Entry]
        ensures { result.now ≡ self.now.entries }
    {
        self.entries.as_slice()
    }

    /// Makes the spare room at least `more` entries.
    pub fn reserve(&mut self, more: u64) -> Result<(), OutOfMemory>
        ensures entries { self.new.entries ≡ self.old.entries }
        ensures room { OnOk result (more ≤ self.new.spare) }
        ensures kept { self.old.spare ≤ self.new.spare }
    {
        self.entries.reserve(more as usize)?;
        Ok(())
    }

    /// Adds an entry at the end. It takes no memory.
    pub fn push(&mut self, entry: Entry)
        requires { 0 < self.old.spare }
        ensures entries { self.new.entries ≡ self.old.entries ++ entry ∷ [] }
        ensures spare { self.new.spare + 1 ≡ self.old.spare }
    {
        self.entries.push_reserved(entry);
    }

    /// Takes all entries out.
    pub fn clear(&mut self)
        ensures entries { self.new.entries ≡ [] }
    {
        self.entries.clear();
    }
}
