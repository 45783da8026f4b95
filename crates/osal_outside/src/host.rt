//! The shelf and the sink of the host: its files and its standard output.
ghost use Rattle.std.specs.Prelude.{◌≡◌, ◌<◌, ◌≤◌, None, length, is_some, IfOk};
ghost use Rattle.osal_outside.specs.Causes.{HasCause};
ghost use Rattle.osal_outside.specs.Host.{CountsFault, HostOpens, ReadsOpen};
ghost use Rattle.osal_outside.specs.Shelf.{AnswersUntold, HasOpenCause};

use crate::{Opened, ReadFailed, Shelf, Sink, WriteFailed};
use osal_base::OutOfMemory;
use std::alloc::Global;
use std::fs;
use std::io::{Print, Read};
use std::rt::Files;

/// The host's files, of whose content nothing is told: this shelf is the trusted edge.
#[derive(Drop)]
pub struct HostShelf<R: Files> {
    rt: R,
    file: Option<R::File>,
    faults: u64,
}

impl<R: Files + Drop> HostShelf<R> {
    /// A shelf with no open file and no faults.
    pub fn new(rt: R) -> HostShelf<R>
        ensures { result.faults ≡ 0 }
    {
        HostShelf {
            rt,
            file: None,
            faults: 0,
        }
    }

    /// How many calls failed.
    pub fn faults(&self) -> u64
        ensures { result ≡ self.now.faults }
    {
        self.faults
    }
}

impl<R: Files + Drop> Shelf for HostShelf<R> {
    ghost content = { λ s. None };

    ghost faults = { λ s. s.faults };

    /// A file that is missing is a fault too.
    fn open(&mut self, _alloc: Global, name: &str) -> Result<Opened, OutOfMemory>
        ensures exact { HostOpens self.old.faults self.new.faults (is_some self.new.file) result }
        ensures untold { AnswersUntold None result }
        ensures cause { HasOpenCause self.old.faults self.new.faults result }
    {
        self.file = None;
        let Ok(file) = fs::open(&self.rt, name) else {
            self.faults = self.faults.saturating_add(1);
            return Ok(Opened::Failed);
        };
        self.file = Some(file);
        Ok(Opened::Ready)
    }

    /// It gives no bytes where no file is open, and leaves an open file open.
    fn read(&mut self, buf: &mut [u8]) -> Result<usize, ReadFailed>
        requires { 0 < length buf.old }
        ensures exact { CountsFault self.old.faults self.new.faults result }
        ensures closed { ReadsOpen (is_some self.old.file) result }
        ensures held { is_some self.new.file ≡ is_some self.old.file }
        ensures bound { IfOk result (λ n. n ≤ length buf.new) }
        ensures cause { HasCause self.old.faults self.new.faults result }
    {
        let Some(file) = &mut self.file else {
            return Ok(0);
        };
        let Ok(n) = file.read(buf) else {
            self.faults = self.faults.saturating_add(1);
            return Err(ReadFailed);
        };
        Ok(n)
    }
}

/// The host's standard output, of whose bytes nothing is told: this sink is the trusted edge.
#[derive(Drop)]
pub struct HostSink<P> {
    out: P,
    faults: u64,
}

impl<P: Print + Drop> HostSink<P> {
    /// A sink with no faults.
    pub fn new(out: P) -> HostSink<P>
        ensures { result.faults ≡ 0 }
    {
        HostSink { out, faults: 0 }
    }

    /// How many calls failed.
    pub fn faults(&self) -> u64
        ensures { result ≡ self.now.faults }
    {
        self.faults
    }
}

impl<P: Print + Drop> Sink for HostSink<P> {
    ghost written = { λ s. None };

    ghost flushed = { λ s. None };

    ghost faults = { λ s. s.faults };

    /// A write that takes nothing is a fault too.
    fn write(&mut self, piece: &[u8]) -> Result<usize, WriteFailed>
        requires { 0 < length piece.now }
        ensures exact { CountsFault self.old.faults self.new.faults result }
        ensures count { IfOk result (λ n. (1 ≤ n) × (n ≤ length piece.now)) }
        ensures cause { HasCause self.old.faults self.new.faults result }
    {
        let n = self.out.write_some(piece).unwrap_or(0);
        if n == 0 {
            self.faults = self.faults.saturating_add(1);
            return Err(WriteFailed);
        }
        Ok(n)
    }

    /// Each write has handed on its bytes, so there is nothing left to do.
    fn flush(&mut self) -> Result<(), WriteFailed>
        ensures exact { CountsFault self.old.faults self.new.faults result }
        ensures cause { HasCause self.old.faults self.new.faults result }
    {
        Ok(())
    }
}
