//! The exit status of a journal.
ghost use Rattle.std.specs.Prelude.{◌≡◌, ◌==◌, ◌&&◌, ◌||◌, ◌∷◌, not, if◌then◌else◌};
ghost use Rattle.osal_script.specs.Script.{start_of, reached, is_ended as is_ended_phase};
ghost use Rattle.osal_runs.specs.Segments.{segments_of};
ghost use Rattle.osal_runs.specs.Runs.{IsPartRun};
ghost use Rattle.osal_report.specs.Cases.{case_by, cases_from, failed};
ghost use Rattle.osal_report.specs.Report.{is_stalled as is_stalled_phase, all_failed};
ghost use Rattle.osal_runs.specs.Spans.{begins as begins_id, if_of, span_of};
ghost use Rattle.osal_report.specs.Ends.{some_stalls};
ghost use Rattle.osal_report.specs.Status.{end_status, status_of as status_by};

use crate::cases::passes;
use crate::entry::{begun, case_at};
use crate::segment::is_stalled;
use osal_call::{Entry, Journal};
use osal_script::{App, Body, Cursor, Phase};

/// How scripts end: whether one has an open wait, and whether a case of them fails.
#[derive(Clone, Copy, Debug)]
pub struct End {
    pub stalled: bool,
    pub fails: bool,
}

impl End {
    /// No open wait, and no case that fails.
    const PLAIN: End = End {
        stalled: false,
        fails: false,
    };

    /// How both end.
    fn or(self, other: End) -> End
        ensures { result ≡ record { stalled = self.stalled || other.stalled; fails = self.fails || other.fails } }
    {
        End {
            stalled: self.stalled || other.stalled,
            fails: self.fails || other.fails,
        }
    }

    /// The status of a journal whose scripts end so: 3 where a wait is open at the end, else 1 where a case failed, else
    /// 0.
    pub fn status(self) -> u8
        ensures { result ≡ end_status self }
    {
        if self.stalled {
            3
        } else if self.fails {
            1
        } else {
            0
        }
    }
}

/// Whether an entry makes a case that fails.
fn case_fails(cursor: &Cursor, entry: &Entry) -> bool
    ensures { result ≡ not (failed (case_by cursor.now entry.entry.now) == 0) }
{
    match case_at(cursor, entry) {
        Some((line, expect)) => !passes(line, expect, &entry.reply),
        None => false,
    }
}

/// Whether an entry creates a task of the identifier.
fn begins(app: &App, entry: &Entry, id: u64) -> bool
    ensures { result ≡ begins_id app.now entry.entry.now id }
{
    match begun(app, entry) {
        Some(_) => entry.reply.number == id,
        None => false,
    }
}

/// Whether a script that has come to this phase is at its end.
fn is_ended(phase: Phase) -> bool
    ensures { result ≡ is_ended_phase phase }
{
    matches!(phase, Phase::Ended)
}

/// A task's script as far as its entries are read, and whether a case of them fails.
#[derive(Drop)]
struct Reading<'a> {
    cursor: Cursor<'a>,
    fails: bool,
}

impl<'a> Reading<'a> {
    /// Reads an entry, where it is of the identifier.
    fn read(&mut self, id: u64, entry: &Entry)
        ensures cursor { self.new.cursor ≡ reached self.old.cursor (if_of id entry.entry.now) }
        ensures passes { not self.new.fails
            ≡ (not self.old.fails && failed (cases_from self.old.cursor (if_of id entry.entry.now)) == 0) }
    {
        if u64::from(entry.task.raw()) != id {
            return;
        }
        self.fails = self.fails || case_fails(&self.cursor, entry);
        self.cursor.follow(&entry.call, &entry.reply);
    }

    /// How the script ends where no entry is left.
    fn end(&self) -> End
        ensures { result ≡ record { stalled = is_stalled_phase self.now.cursor.phase; fails = self.now.fails } }
    {
        End {
            stalled: is_stalled(self.cursor.phase()),
            fails: self.fails,
        }
    }
}

/// How the script of a task ends, by the entries behind the one that creates it.
///
/// It reads them up to the script's end.
fn end_of_task(app: &App, id: u64, body: &Body, entries: &[Entry]) -> End
    ensures stalled { result.stalled
        ≡ is_stalled_phase (reached (start_of app.now.bodies body.now) (span_of app.now id entries.now)).phase }
    ensures passes { not result.fails
        ≡ (failed (cases_from (start_of app.now.bodies body.now) (span_of app.now id entries.now)) == 0) }
{
    let mut reading = Reading {
        cursor: Cursor::new(app, body),
        fails: false,
    };
    for entry in entries {
        reading.read(id, entry);
        if is_ended(reading.cursor.phase()) {
            return reading.end();
        }
        if begins(app, entry, id) {
            return reading.end();
        }
    }
    reading.end()
}

/// How the script of the task that an entry creates ends, where it creates one.
fn end_of(app: &App, entry: &Entry, others: &[Entry]) -> End
    ensures stalled { (result.stalled || some_stalls (segments_of app.now others.now))
        ≡ some_stalls (segments_of app.now (entry.entry.now ∷ others.now)) }
    ensures passes { (not result.fails && all_failed (segments_of app.now others.now) == 0)
        ≡ (all_failed (segments_of app.now (entry.entry.now ∷ others.now)) == 0) }
{
    match begun(app, entry) {
        Some((_, body)) => end_of_task(app, entry.reply.number, body, others),
        None => End::PLAIN,
    }
}

/// How the tasks' scripts end: whether any has an open wait, and whether a case fails.
///
/// For each task it reads the entries from the task's creation to its end.
pub fn end_of_all(app: &App, entries: &[Entry]) -> End
    ensures stalled { result.stalled ≡ some_stalls (segments_of app.now entries.now) }
    ensures passes { not result.fails ≡ (all_failed (segments_of app.now entries.now) == 0) }
{
    let mut all = End::PLAIN;
    for i in 0..entries.len() {
        all = all.or(end_of(app, &entries[i], &entries[i + 1..]));
    }
    all
}

/// The exit status: 3 where a wait is open at the end, else 1 where a case failed, else 0. It takes no memory.
///
/// Its time is in proportion to the journal, times the number of tasks that live at once.
pub fn status_of(app: &App, journal: &Journal) -> u8
    requires { IsPartRun app.now journal.now.entries }
    ensures { result ≡ status_by app.now journal.now.entries }
{
    let end = end_of_all(app, journal.entries());
    // The law that ties open waits to scripts asks that bodies name later ones alone, which this tells.
    let _ = app.bodies();
    end.status()
}
