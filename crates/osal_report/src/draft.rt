//! The draft of a segment: its cases and counts, as far as its entries are read.
ghost use Rattle.std.specs.Prelude.{◌≡◌, ◌+◌, ◌<◌, ◌≤◌, ◌^◌, ◌++◌, [], length, IfOk, OnOk};
ghost use Rattle.osal_report.specs.Cases.{case_by, cases_text, passed, failed};
ghost use Rattle.osal_report.specs.Report.{is_stalled as is_stalled_phase};
ghost use Rattle.osal_report.specs.Draft.{draft_of, noted, draft_text};

use crate::cases::push_case;
use crate::counts::Counts;
use crate::entry::{case_at, is_exit};
use crate::segment::{how, is_stalled, push_begin, push_end, push_stall};
use osal_base::OutOfMemory;
use osal_call::Entry;
use osal_script::{App, Body, Cursor};
use osal_spelling::push_bytes;
use std::alloc::Global;
use std::marker::Model;

/// Appends the line of the case that an entry makes, if it makes one, and counts it.
fn push_next(
    lines: &mut Vec<u8>,
    counts: Counts,
    cursor: &Cursor,
    entry: &Entry,
) -> Result<Counts, OutOfMemory>
    requires { counts.pass + counts.fail < 2 ^ 63 }
    ensures lines { OnOk result (lines.new.items
        ≡ lines.old.items ++ cases_text (counts.pass + counts.fail + 1) (case_by cursor.now entry.entry.now)) }
    ensures pass { IfOk result (λ after.
        after.pass ≡ counts.pass + passed (case_by cursor.now entry.entry.now)) }
    ensures fail { IfOk result (λ after.
        after.fail ≡ counts.fail + failed (case_by cursor.now entry.entry.now)) }
{
    let Some((line, expect)) = case_at(cursor, entry) else {
        return Ok(counts);
    };
    let number = counts.pass + counts.fail + 1;
    let pass = push_case(lines, number, line, expect, &entry.reply)?;
    Ok(counts.with(pass))
}

/// The room of a segment's first and last line and of its line that waits, without the names.
const FRAME_ROOM: usize = 160;

/// A segment as far as its journal is read.
#[derive(Drop)]
pub(crate) struct Draft<'a> {
    id: u64,
    name: &'a [u8],
    cursor: Cursor<'a>,
    counts: Counts,
    lines: Vec<u8>,
    exits: bool,
}

impl<'a> Model for Draft<'a> {
    ghost use Rattle.osal_report.specs.Draft.{DraftState};

    ghost Value = { DraftState };

    ghost view = { λ a. record {
      id = a.id;
      name = a.name.now;
      script = a.cursor;
      pass = a.counts.pass;
      fail = a.counts.fail;
      lines = a.lines.items;
      exits = a.exits;
    } };

    ghost invariant = { λ a. Unit {0} };
}

impl<'a> Draft<'a> {
    /// The draft of a task that was just created. It takes no memory.
    pub(crate) fn new(
        alloc: Global,
        id: u64,
        name: &'a [u8],
        app: &'a App,
        body: &'a Body,
    ) -> Draft<'a>
        ensures { result ≡ draft_of (record { id = id; name = name.now; bodies = app.now.bodies; body = body.now; entries = [] }) }
    {
        Draft {
            id,
            name,
            cursor: Cursor::new(app, body),
            counts: Counts::NONE,
            lines: Vec::new(alloc),
            exits: false,
        }
    }

    /// Reads one more entry of the task.
    pub(crate) fn note(&mut self, entry: &Entry) -> Result<(), OutOfMemory>
        requires { self.old.pass + self.old.fail ≤ length self.old.lines }
        ensures { OnOk result (self.new ≡ noted self.old entry.entry.now) }
    {
        let _ = self.lines.len();
        self.counts = push_next(&mut self.lines, self.counts, &self.cursor, entry)?;
        self.cursor.follow(&entry.call, &entry.reply);
        self.exits = is_exit(&entry.call);
        Ok(())
    }

    /// How many of its cases pass and fail.
    pub(crate) fn counts(&self) -> Counts
        ensures { result ≡ record { pass = self.now.pass; fail = self.now.fail } }
    {
        self.counts
    }

    /// Whether its script has an open wait.
    pub(crate) fn is_stalled(&self) -> bool
        ensures { result ≡ is_stalled_phase self.now.script.phase }
    {
        is_stalled(self.cursor.phase())
    }

    /// How much room the segment's text takes, with some to spare.
    #[tactic(auto, using(crate::proofs::Rooms::holds_names))]
    pub(crate) fn room(&self) -> usize
        ensures { result ≤ length (draft_text self.now) + 160 }
    {
        let names = self.name.len().saturating_mul(2);
        self.lines
            .len()
            .saturating_add(names)
            .saturating_add(FRAME_ROOM)
    }

    /// Appends the segment's text.
    pub(crate) fn push_text(&self, out: &mut Vec<u8>) -> Result<(), OutOfMemory>
        ensures { OnOk result (out.new.items ≡ out.old.items ++ draft_text self.now) }
    {
        let phase = self.cursor.phase();
        push_begin(out, self.id, self.name)?;
        push_bytes(out, self.lines.as_slice())?;
        push_stall(out, phase, self.cursor.line())?;
        push_end(out, self.id, self.name, how(phase, self.exits), self.counts)?;
        Ok(())
    }
}
