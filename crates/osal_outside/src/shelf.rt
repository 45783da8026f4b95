//! Where a program reads its files.
ghost use Rattle.std.specs.Prelude.{◌≡◌, ◌<◌, ◌≤◌, ℕ, Option, length, IfOk};
ghost use Rattle.osal_outside.specs.Causes.{HasCause, WhereTold};
ghost use Rattle.osal_outside.specs.Shelf.{ShelfContent, OpenLeaves, AnswersUntold, HasOpenCause, ReadLeaves};

use osal_base::OutOfMemory;
use std::alloc::Global;

/// How an open went.
#[derive(Clone, Copy, Debug, PartialEq, Eq)]
pub enum Opened {
    /// The file is open at its start.
    Ready,
    /// The shelf tells that there is no such file.
    NotFound,
    /// The file could not be opened.
    Failed,
}

/// A read failed; the open file is where it was.
#[derive(Clone, Copy, Debug, PartialEq, Eq)]
pub struct ReadFailed;

/// A source of named files, of which one is open at a time.
pub trait Shelf {
    /// The files and what is left of the open one, where the shelf tells it.
    ghost content: { Self → Option ShelfContent };

    /// How often the outside has failed: a call that did not fail leaves it.
    ghost faults: { Self → ℕ };

    /// Opens the file of that name in place of the one that is open.
    fn open(&mut self, alloc: Global, name: &str) -> Result<Opened, OutOfMemory>
        ensures told { WhereTold (content self.old) (content self.new) (OpenLeaves name.now result) }
        ensures untold { AnswersUntold (content self.old) result }
        ensures cause { HasOpenCause (faults self.old) (faults self.new) result };

    /// Reads some bytes of the open file into the front of the buffer; 0 means its end.
    fn read(&mut self, buf: &mut [u8]) -> Result<usize, ReadFailed>
        requires { 0 < length buf.old }
        ensures bound { IfOk result (λ n. n ≤ length buf.new) }
        ensures told { WhereTold (content self.old) (content self.new) (ReadLeaves result buf.new) }
        ensures cause { HasCause (faults self.old) (faults self.new) result };
}
