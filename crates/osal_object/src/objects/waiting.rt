//! How waits begin, are released, and end: while a wait is open it holds what it stands on.
ghost use Rattle.std.specs.Prelude.{◌≡◌, [], Bool, find, option_copied};
ghost use Rattle.osal_base.specs.Reply.{replied};
ghost use Rattle.osal_object.specs.Waits.{wait_of, is_of, stands_on};
ghost use Rattle.osal_object.specs.Tests.{Computes};
ghost use Rattle.osal_object.specs.Deadlines.{deadlines_in, least};
ghost use Rattle.osal_object.specs.Waiting.{hold_each, release_each, begin_step, end_wait, abandon_step, release_waits};

use super::Objects;
use crate::Standing;
use crate::waits::WaitRecord;
use osal_base::{Ack, Moment, OsalId, Status};
use osal_idtable::Table;

/// One hold more of what a wait stands on.
fn hold_each<T>(table: &mut Table<T>, on: &Standing)
    ensures { table.new ≡ hold_each table.old on.now }
{
    match on.one() {
        Ok(None) => {}
        Ok(Some(id)) => {
            let _held = table.hold(id);
        }
        Err(ids) => hold_all(table, ids),
    }
}

fn hold_all<T>(table: &mut Table<T>, ids: &[u32])
    ensures { table.new ≡ hold_each table.old ids.now }
{
    for id in ids {
        let _held = table.hold(OsalId::of_raw(*id));
    }
}

/// One hold less of what a wait stood on.
fn release_each<T>(table: &mut Table<T>, on: &Standing)
    ensures { table.new ≡ release_each table.old on.now }
{
    match on.one() {
        Ok(None) => {}
        Ok(Some(id)) => {
            let _released = table.release(id);
        }
        Err(ids) => release_all(table, ids),
    }
}

fn release_all<T>(table: &mut Table<T>, ids: &[u32])
    ensures { table.new ≡ release_each table.old ids.now }
{
    for id in ids {
        let _released = table.release(OsalId::of_raw(*id));
    }
}

impl<T, W> Objects<T, W> {
    /// The open wait of a task. It looks at each wait at most.
    pub fn wait_of(&self, task: OsalId) -> Option<&WaitRecord<W>>
        ensures { option_copied result ≡ wait_of self.now.waits task }
    {
        self.waits.wait_of(task)
    }

    /// The oldest open wait that passes a test. It looks at each wait at most.
    pub fn first_where<F: Fn(&WaitRecord<W>) -> bool>(&self, test: F) -> Option<&WaitRecord<W>>
        requires { F.IsAlwaysCallable test }
        ensures { (passes : WaitRecord W → Bool) → Computes F.Fn test passes
            → option_copied result ≡ find passes self.now.waits.records }
    {
        self.waits.first_where(test)
    }

    /// The least deadline of an open wait behind a moment, in milliseconds, if there is one. It looks at each wait.
    pub fn next_deadline(&self, now: Moment) -> Option<u64>
        ensures { result ≡ least (deadlines_in now self.now.waits.records) }
    {
        self.waits.next_deadline(now)
    }
}

impl<T, W: Drop> Objects<T, W> {
    /// Begins a wait, unless its task waits already or there is no room for one more. It takes no memory.
    pub fn begin(&mut self, wait: WaitRecord<W>) -> Ack
        ensures { (replied result [], self.new) ≡ begin_step self.old wait }
    {
        if let Some(fault) = self.waits.fault(wait.task) {
            return Ack::refused(fault);
        }
        hold_each(&mut self.table, &wait.on);
        self.waits.open(wait);
        Ack::waits()
    }

    /// Ends the open wait of a task, where it has one: it holds nothing any more.
    pub fn end(&mut self, task: OsalId)
        ensures { self.new ≡ end_wait self.old task }
    {
        if let Some(turn) = self.waits.turn_of(task) {
            let wait = self.waits.at(turn);
            release_each(&mut self.table, &wait.on);
            self.waits.close(turn);
        }
    }

    /// Gives the open wait of a task up.
    pub fn abandon(&mut self, task: OsalId) -> Ack
        ensures { (replied result [], self.new) ≡ abandon_step self.old task }
    {
        if self.waits.wait_of(task).is_none() {
            return Ack::refused(Status::ErrIncorrectObjState);
        }
        self.end(task);
        Ack::success()
    }

    /// Releases each open wait that stands on an object: it is ready from now on.
    pub fn release_on(&mut self, id: OsalId)
        ensures { self.new ≡ release_waits self.old (stands_on id) }
    {
        self.release_where(|wait| wait.stands_on(id));
    }

    /// Releases the open wait of a task, where it has one: it is ready from now on.
    pub fn release_of(&mut self, task: OsalId)
        ensures { self.new ≡ release_waits self.old (is_of task) }
    {
        self.release_where(|wait| wait.task == task);
    }

    /// Releases each open wait that passes a test: it is ready from now on.
    pub fn release_where<F: Fn(&WaitRecord<W>) -> bool>(&mut self, test: F)
        requires { F.IsAlwaysCallable test }
        ensures { (passes : WaitRecord W → Bool) → Computes F.Fn test passes
            → self.new ≡ release_waits self.old passes }
    {
        self.waits.release_where(test);
    }
}
