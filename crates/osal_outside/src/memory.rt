//! A shelf and a sink in memory, whose faults are planned.
ghost use Rattle.std.specs.Prelude.{◌≡◌, ◌≤◌, ◌<◌, Some, [], length, IfOk, false};
ghost use Rattle.osal_outside.specs.Causes.{HasCause, WhereTold};
ghost use Rattle.osal_outside.specs.Shelf.{OpenLeaves, AnswersUntold, HasOpenCause, ReadLeaves};
ghost use Rattle.osal_outside.specs.Memory.{stored, has_twins};
ghost use Rattle.osal_outside.specs.MemShelf.{told, fresh_shelf, open_step, read_step};
ghost use Rattle.osal_outside.specs.Sink.{WriteLeaves, FlushLeaves};
ghost use Rattle.osal_outside.specs.MemSink.{fresh_sink, flushed_bytes, write_step, flush_step};

use crate::files::{fill, place_of, rest_of};
use crate::plan::Plan;
use crate::{Opened, ReadFailed, Shelf, Sink, WriteFailed};
use osal_base::{Bytes, OutOfMemory};
use std::alloc::Global;
use std::marker::Model;

/// A shelf of files in memory, which tells its content.
///
/// It counts its opens and reads together, and fails at the calls that it was given.
#[derive(Debug, Drop)]
pub struct MemShelf {
    files: Vec<(String, Bytes)>,
    current: Option<usize>,
    at: usize,
    grain: u32,
    plan: Plan,
}

impl Model for MemShelf {
    ghost use Rattle.std.specs.Prelude.{◌≤◌};
    ghost use Rattle.osal_outside.specs.Memory.{stored, rest_from};
    ghost use Rattle.osal_outside.specs.MemShelf.{MemFiles};

    ghost Value = { MemFiles };

    ghost view = { λ a. record {
      files = stored a.files.items;
      rest = rest_from a.files.items a.current a.at;
      grain = a.grain;
      plan = a.plan;
    } };

    ghost invariant = { λ a. 1 ≤ a.grain };
}

impl MemShelf {
    /// A shelf of these files, none of them open, whose reads give at most `grain` bytes.
    ///
    /// `fails` lists the numbers of the calls that fail, counted from 1.
    pub fn new(files: Vec<(String, Bytes)>, grain: u32, fails: Vec<u64>) -> MemShelf
        requires names { has_twins (stored files.items) ≡ false }
        requires grain { 1 ≤ grain }
        ensures { result ≡ fresh_shelf (stored files.items) grain fails.items }
    {
        MemShelf {
            files,
            current: None,
            at: 0,
            grain,
            plan: Plan::new(fails),
        }
    }

    /// Whether a name stands twice in a list of files.
    pub fn has_twins(files: &[(String, Bytes)]) -> bool
        ensures { result ≡ has_twins (stored files.now) }
    {
        match files {
            [] => false,
            [first, rest @ ..] => {
                place_of(rest, first.0.as_str()).is_some() || MemShelf::has_twins(rest)
            }
        }
    }

    /// How many calls failed.
    pub fn faults(&self) -> u64
        ensures { result ≡ self.now.plan.faults }
    {
        self.plan.faults()
    }
}

impl Shelf for MemShelf {
    ghost content = { λ s. Some (told s) };

    ghost faults = { λ s. s.plan.faults };

    /// It takes no memory. A name that is not there is `NotFound` also where the call is to fail.
    fn open(&mut self, _alloc: Global, name: &str) -> Result<Opened, OutOfMemory>
        ensures step { (result, self.new) ≡ open_step self.old name.now }
        ensures told { WhereTold (Some (told self.old)) (Some (told self.new)) (OpenLeaves name.now result) }
        ensures untold { AnswersUntold (Some (told self.old)) result }
        ensures cause { HasOpenCause self.old.plan.faults self.new.plan.faults result }
    {
        self.current = None;
        let Some(place) = place_of(&self.files, name) else {
            self.plan.count();
            return Ok(Opened::NotFound);
        };
        if self.plan.is_due() {
            self.plan.fail();
            return Ok(Opened::Failed);
        }
        self.plan.count();
        self.current = Some(place);
        self.at = 0;
        Ok(Opened::Ready)
    }

    fn read(&mut self, buf: &mut [u8]) -> Result<usize, ReadFailed>
        requires { 0 < length buf.old }
        ensures step { (result, self.new) ≡ read_step self.old (length buf.old) }
        ensures bound { IfOk result (λ n. n ≤ length buf.new) }
        ensures told { WhereTold (Some (told self.old)) (Some (told self.new)) (ReadLeaves result buf.new) }
        ensures cause { HasCause self.old.plan.faults self.new.plan.faults result }
    {
        if self.plan.is_due() {
            self.plan.fail();
            return Err(ReadFailed);
        }
        self.plan.count();
        let n = fill(rest_of(&self.files, self.current, self.at), self.grain, buf);
        self.at += n;
        Ok(n)
    }
}

/// A sink in memory, which tells its bytes and how many of them were handed on.
///
/// It counts its writes and flushes together, and fails at the calls that it was given.
#[derive(Debug, Drop)]
pub struct MemSink {
    bytes: Bytes,
    handed: usize,
    room: u32,
    grain: u32,
    plan: Plan,
}

impl Model for MemSink {
    ghost use Rattle.std.specs.Prelude.{◌≤◌, ◌+◌, length};
    ghost use Rattle.osal_outside.specs.MemSink.{MemWritten};

    ghost Value = { MemWritten };

    ghost view = { λ a. record {
      bytes = a.bytes.bytes;
      handed = a.handed;
      room = a.room;
      grain = a.grain;
      plan = a.plan;
    } };

    ghost invariant = { λ a. (1 ≤ a.grain)
        × (a.room ≤ length a.bytes.bytes + a.bytes.spare)
        × (a.handed ≤ length a.bytes.bytes) };
}

impl MemSink {
    /// An empty sink with the memory for `room` bytes, whose writes take at most `grain`.
    ///
    /// `fails` lists the numbers of the calls that fail, counted from 1.
    pub fn new(
        alloc: Global,
        room: u32,
        grain: u32,
        fails: Vec<u64>,
    ) -> Result<MemSink, OutOfMemory>
        requires { 1 ≤ grain }
        ensures { IfOk result (λ made. made ≡ fresh_sink room grain fails.items) }
    {
        Ok(MemSink {
            bytes: Bytes::with_room(alloc, room)?,
            handed: 0,
            room,
            grain,
            plan: Plan::new(fails),
        })
    }

    /// The bytes written.
    pub fn written(&self) -> &[u8]
        ensures { result.now ≡ self.now.bytes }
    {
        self.bytes.as_slice()
    }

    /// The bytes handed on: what was written before the last flush that did not fail.
    pub fn flushed(&self) -> &[u8]
        ensures { result.now ≡ flushed_bytes self.now }
    {
        &self.bytes.as_slice()[..self.handed]
    }

    /// How many calls failed.
    pub fn faults(&self) -> u64
        ensures { result ≡ self.now.plan.faults }
    {
        self.plan.faults()
    }
}

impl Sink for MemSink {
    ghost written = { λ s. Some s.bytes };

    ghost flushed = { λ s. Some (flushed_bytes s) };

    ghost faults = { λ s. s.plan.faults };

    /// It fails where no room is left too, and takes no memory.
    fn write(&mut self, piece: &[u8]) -> Result<usize, WriteFailed>
        requires { 0 < length piece.now }
        ensures step { (result, self.new) ≡ write_step self.old piece.now }
        ensures count { IfOk result (λ n. (1 ≤ n) × (n ≤ length piece.now)) }
        ensures told { WhereTold (Some self.old.bytes) (Some self.new.bytes) (WriteLeaves result piece.now) }
        ensures cause { HasCause self.old.plan.faults self.new.plan.faults result }
    {
        let left = (self.room as usize).saturating_sub(self.bytes.as_slice().len());
        let n = piece.len().min(self.grain as usize).min(left);
        if self.plan.is_due() || n == 0 {
            self.plan.fail();
            return Err(WriteFailed);
        }
        self.plan.count();
        self.bytes.append(&piece[..n]);
        Ok(n)
    }

    fn flush(&mut self) -> Result<(), WriteFailed>
        ensures step { (result, self.new) ≡ flush_step self.old }
        ensures told { Some self.new.bytes ≡ Some self.old.bytes }
        ensures handed { FlushLeaves result (Some self.new.bytes) (Some (flushed_bytes self.old)) (Some (flushed_bytes self.new)) }
        ensures cause { HasCause self.old.plan.faults self.new.plan.faults result }
    {
        if self.plan.is_due() {
            self.plan.fail();
            return Err(WriteFailed);
        }
        self.plan.count();
        self.handed = self.bytes.as_slice().len();
        Ok(())
    }
}
