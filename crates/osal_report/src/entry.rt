//! What an entry says of its task: the line that it answers, the task that it creates.
ghost use Rattle.std.specs.Prelude.{◌≡◌, MatchOption, List, [], ◌∷◌, if◌then◌else◌};
ghost use Rattle.osal_base.specs.Reply.{reply_of, is_waits as says_waits};
ghost use Rattle.osal_script.specs.Script.{Pending, is_checkpoint as is_checkpoint_call, is_success as is_success_answer};
ghost use Rattle.osal_runs.specs.Segments.{begun as begun_by};
ghost use Rattle.osal_report.specs.Cases.{case_of_next, case_in, case_by};
ghost use Rattle.osal_report.specs.Report.{is_exit as is_exit_call};

use osal_base::Answer;
use osal_call::{Call, Entry};
use osal_script::{App, Body, Cursor, Expect, Line, Phase};

/// Whether an answer says that the call has to wait.
fn is_waits(answer: Answer) -> bool
    ensures { result ≡ says_waits answer }
{
    matches!(answer, Answer::Waits)
}

/// Whether an answer is success.
pub(crate) fn is_success(answer: Answer) -> bool
    ensures { result ≡ is_success_answer answer }
{
    match answer {
        Answer::Code(code) => code == 0,
        Answer::Waits | Answer::Go | Answer::Deleted => false,
    }
}

/// Whether a call is the place at which a task learns whether it goes on.
fn is_checkpoint(call: &Call) -> bool
    ensures { result ≡ is_checkpoint_call call.now }
{
    matches!(call, Call::Checkpoint)
}

/// Whether a call is the exit of a task.
pub(crate) fn is_exit(call: &Call) -> bool
    ensures { result ≡ is_exit_call call.now }
{
    matches!(call, Call::TaskExit)
}

/// Whether an entry answers the line that comes next in this phase.
fn answers_line(phase: Phase, entry: &Entry) -> bool
    ensures { (pending : List Pending) →
        case_in phase pending entry.entry.now.call (reply_of entry.entry.now.reply)
        ≡ (if result then case_of_next pending (reply_of entry.entry.now.reply) else []) }
{
    match phase {
        Phase::At => !is_waits(entry.reply.answer),
        Phase::Waiting { .. } => !is_checkpoint(&entry.call),
        Phase::Before | Phase::Leaving { .. } | Phase::Ended => false,
    }
}

/// The line that an entry answers and what it expects, where the entry makes a case.
pub(crate) fn case_at<'a>(cursor: &Cursor<'a>, entry: &Entry) -> Option<(&'a Line, &'a Expect)>
    ensures { MatchOption result
        (case_by cursor.now entry.entry.now ≡ [])
        (λ found. case_by cursor.now entry.entry.now
        ≡ record { line = found.0.now; expect = found.1.now; reply = reply_of entry.entry.now.reply } ∷ []) }
{
    if !answers_line(cursor.phase(), entry) {
        return None;
    }
    let line = cursor.line()?;
    match &line.expect {
        Some(expect) => Some((line, expect)),
        None => None,
    }
}

/// The name and the body of the task that an entry creates, where it creates one.
pub(crate) fn begun<'a>(app: &'a App, entry: &'a Entry) -> Option<(&'a [u8], &'a Body)>
    ensures { MatchOption result
        (begun_by app.now entry.entry.now ≡ [])
        (λ found. begun_by app.now entry.entry.now ≡ record {
          id = entry.entry.now.reply.number;
          name = found.0.now;
          bodies = app.now.bodies;
          body = found.1.now;
          entries = [];
        } ∷ []) }
{
    if !is_success(entry.reply.answer) {
        return None;
    }
    match &entry.call {
        Call::TaskCreate { name, body, .. } => {
            if *body < app.bodies() {
                Some((name.as_slice(), app.body(*body)))
            } else {
                None
            }
        }
        _ => None,
    }
}
