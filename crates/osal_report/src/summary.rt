//! The report of a journal, alone and with its exit status.
ghost use Rattle.std.specs.Prelude.{◌≡◌, ◌≤◌, ◌+◌, ◌*◌, ◌++◌, length, IfOk, OnOk};
ghost use Rattle.std.specs.List.{AllByRecursion, flat_map, sum_by};
ghost use Rattle.osal_runs.specs.Runs.{IsPartRun};
ghost use Rattle.osal_report.specs.Report.{total_text, report_text};
ghost use Rattle.osal_report.specs.Status.{end_status, status_of};
ghost use Rattle.osal_report.specs.Draft.{IsCounted, draft_text};

use crate::counts::{Counts, push_counts};
use crate::draft::Draft;
use crate::drafts::{drafts_of, some_stalled};
use crate::status::End;
use osal_base::{Bytes, OutOfMemory};
use osal_call::Journal;
use osal_script::App;
use osal_spelling::{push_bytes, push_decimal};
use std::alloc::Global;

/// The room of the last line of a report.
const TOTAL_ROOM: usize = 100;

/// How much room a report takes, with some to spare.
fn room_of(drafts: &[Draft]) -> usize
    ensures { result ≤ length (flat_map draft_text drafts.now) + 160 * length drafts.now + 100 }
{
    let mut room = TOTAL_ROOM;
    for draft in drafts {
        room = room.saturating_add(draft.room());
    }
    room
}

/// Appends the segments' texts, and counts their cases.
fn push_segments(out: &mut Vec<u8>, drafts: &[Draft]) -> Result<Counts, OutOfMemory>
    requires { AllByRecursion IsCounted drafts.now }
    ensures text { OnOk result (out.new.items ≡ out.old.items ++ flat_map draft_text drafts.now) }
    ensures pass { IfOk result (λ counts. counts.pass ≡ sum_by (λ draft. draft.pass) drafts.now) }
    ensures fail { IfOk result (λ counts. counts.fail ≡ sum_by (λ draft. draft.fail) drafts.now) }
{
    let mut counts = Counts::NONE;
    for draft in drafts {
        draft.push_text(out)?;
        counts = counts.plus(draft.counts());
    }
    Ok(counts)
}

/// Appends the last line of a report.
#[tactic(auto, unfolding(crate::specs::Report::total_text))]
fn push_total(out: &mut Vec<u8>, tasks: u64, counts: Counts) -> Result<(), OutOfMemory>
    ensures { OnOk result (out.new.items
        ≡ out.old.items ++ total_text tasks counts.pass counts.fail) }
{
    push_bytes(out, b"[TOTAL] TASKS ")?;
    push_decimal(out, tasks)?;
    push_counts(out, counts)?;
    Ok(())
}

/// The text of a report by its drafts, and how many of its cases pass and fail.
fn written(alloc: Global, drafts: &[Draft]) -> Result<(Bytes, Counts), OutOfMemory>
    requires { AllByRecursion IsCounted drafts.now }
    ensures text { IfOk result (λ made. made.0.bytes ≡ flat_map draft_text drafts.now
        ++ total_text (length drafts.now) (sum_by (λ draft. draft.pass) drafts.now) (sum_by (λ draft. draft.fail) drafts.now)) }
    ensures fail { IfOk result (λ made. made.1.fail ≡ sum_by (λ draft. draft.fail) drafts.now) }
{
    let mut out = Vec::with_capacity(alloc, room_of(drafts))?;
    let counts = push_segments(&mut out, drafts)?;
    push_total(&mut out, drafts.len() as u64, counts)?;
    Ok((Bytes::from_vec(out), counts))
}

/// The report: a segment for each task that was created, with a line for each case, and the totals.
///
/// It reads the journal once, in time proportional to the journal and its text, times the logarithm of the number
/// of tasks.
pub fn report(alloc: Global, app: &App, journal: &Journal) -> Result<Bytes, OutOfMemory>
    ensures { IfOk result (λ text. text.bytes ≡ report_text app.now journal.now.entries) }
{
    let drafts = drafts_of(alloc, app, journal.entries())?;
    let (text, _) = written(alloc, drafts.as_slice())?;
    Ok(text)
}

/// What a journal says of its application: the text of its report, and how its scripts end.
#[derive(Debug, Drop)]
pub struct Summary {
    pub report: Bytes,
    pub end: End,
}

/// The report, and the end that decides the exit status, by one reading of the journal.
///
/// Its time is that of `report`; `status_of` tells the status alone, and takes no memory.
pub fn summarize(alloc: Global, app: &App, journal: &Journal) -> Result<Summary, OutOfMemory>
    requires { IsPartRun app.now journal.now.entries }
    ensures report { IfOk result (λ made. made.report.bytes ≡ report_text app.now journal.now.entries) }
    ensures status { IfOk result (λ made. end_status made.end ≡ status_of app.now journal.now.entries) }
{
    let drafts = drafts_of(alloc, app, journal.entries())?;
    let (report, counts) = written(alloc, drafts.as_slice())?;
    let end = End {
        stalled: some_stalled(drafts.as_slice()),
        fails: counts.fail != 0,
    };
    // The law that ties open waits to scripts asks that bodies name later ones alone, which this tells.
    let _ = app.bodies();
    Ok(Summary { report, end })
}
