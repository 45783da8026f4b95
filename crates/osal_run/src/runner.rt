//! The top call.
ghost use Rattle.std.specs.Prelude.{◌≡◌, ◌==◌, ◌≤◌, [], ℕ, List, false, map, OnOk, option_copied, string_bytes};
ghost use Rattle.osal_outside.specs.Causes.{HasCause, Rose, RoseIf, WhereTold};
ghost use Rattle.osal_outside.specs.Sink.{Appends, AppendsPrefix};
ghost use Rattle.osal_script.specs.Cost.{cost_of};
ghost use Rattle.osal_journal.specs.Writing.{is_write_failed};
ghost use Rattle.osal_run.specs.Request.{request_of as asked_for, asks_file, asks_journal};
ghost use Rattle.osal_run.specs.Checks.{Accepted, Refused, check_of, cost_limit};
ghost use Rattle.osal_run.specs.Outcome.{exit_number, text_if, rest_text, Leaves, LeavesFor, LeavesBy, TellsFaults, Completes};
ghost use Rattle.osal_run.specs.Loading.{IfTold};

use crate::load::{Stop, load};
use crate::request::request_of;
use crate::{Exit, Refusal};
use osal_base::Bytes;
use osal_call::Journal;
use osal_exec::{Gate, Outcome, drive};
use osal_journal::{WriteFault, write_journal};
use osal_outside::{Shelf, Sink, WriteFailed, send_all};
use osal_report::summarize;
use osal_script::App;
use std::alloc::Global;

/// Writes a text and hands it on, or a prefix of it where the sink fails.
fn write_text<K: Sink>(sink: &mut K, text: &[u8]) -> Result<(), WriteFailed>
    ensures all { OnOk result (WhereTold (K.written sink.old) (K.written sink.new) (Appends text.now)) }
    ensures prefix { WhereTold (K.written sink.old) (K.written sink.new) (AppendsPrefix text.now) }
    ensures handed { OnOk result (K.flushed sink.new ≡ K.written sink.new) }
    ensures cause { HasCause (K.faults sink.old) (K.faults sink.new) result }
{
    send_all(sink, text)?;
    sink.flush()
}

/// Tells why a run is refused.
fn refuse<K: Sink>(alloc: Global, refusal: Refusal, sink: &mut K) -> Exit
    ensures left { (words : List (List ℕ)) → Leaves result words (Refused refusal) [] (K.written sink.old) (K.written sink.new) }
    ensures handed { exit_number result ≤ 3 → K.flushed sink.new ≡ K.written sink.new }
    ensures sink { RoseIf (exit_number result == 5) (K.faults sink.old) (K.faults sink.new) }
    ensures source { (exit_number result == 4) ≡ false }
{
    let Ok(text) = refusal.text(alloc) else {
        return Exit::NoMemory;
    };
    match write_text(sink, text.as_slice()) {
        Ok(()) => Exit::Refused,
        Err(WriteFailed) => Exit::SinkFault,
    }
}

/// Writes the text of a journal, where it is asked for.
fn write_shown<K: Sink>(
    alloc: Global,
    journal: Option<&Journal>,
    sink: &mut K,
) -> Result<(), WriteFault>
    ensures all { OnOk result (WhereTold (K.written sink.old) (K.written sink.new)
        (Appends (text_if (option_copied journal.entry)))) }
    ensures prefix { WhereTold (K.written sink.old) (K.written sink.new)
        (AppendsPrefix (text_if (option_copied journal.entry))) }
    ensures cause { RoseIf (is_write_failed result) (K.faults sink.old) (K.faults sink.new) }
{
    match journal {
        Some(journal) => write_journal(alloc, journal, sink),
        None => Ok(()),
    }
}

/// Writes what stands behind the console text: the report, and the journal's text where it is asked for.
fn write_rest<K: Sink>(
    alloc: Global,
    report: &Bytes,
    journal: Option<&Journal>,
    sink: &mut K,
) -> Result<(), WriteFault>
    ensures all { OnOk result (WhereTold (K.written sink.old) (K.written sink.new)
        (Appends (rest_text report.now.bytes (option_copied journal.entry)))) }
    ensures prefix { WhereTold (K.written sink.old) (K.written sink.new)
        (AppendsPrefix (rest_text report.now.bytes (option_copied journal.entry))) }
    ensures handed { OnOk result (K.flushed sink.new ≡ K.written sink.new) }
    ensures cause { RoseIf (is_write_failed result) (K.faults sink.old) (K.faults sink.new) }
{
    send_all(sink, report.as_slice())?;
    write_shown(alloc, journal, sink)?;
    sink.flush()?;
    Ok(())
}

/// Runs an application, and writes its console text, its report, and its journal where that is asked for.
fn execute<K: Sink, G: Gate>(
    alloc: Global,
    app: &App,
    shows_journal: bool,
    sink: &mut K,
    gate: &G,
    journal: &mut Journal,
) -> Exit
    requires cost { cost_of app.now ≤ cost_limit }
    requires empty { journal.old.entries ≡ [] }
    ensures left { (words : List (List ℕ)) → asks_journal (asked_for words) ≡ shows_journal
        → Leaves result words (Accepted app.now) journal.new.entries (K.written sink.old) (K.written sink.new) }
    ensures handed { exit_number result ≤ 3 → K.flushed sink.new ≡ K.written sink.new }
    ensures sink { RoseIf (exit_number result == 5) (K.faults sink.old) (K.faults sink.new) }
    ensures source { (exit_number result == 4) ≡ false }
{
    match drive(alloc, app, sink, gate, journal) {
        Outcome::Settled => {}
        Outcome::SinkFault => return Exit::SinkFault,
        Outcome::OutOfMemory => return Exit::NoMemory,
    }
    let Ok(summary) = summarize(alloc, app, journal) else {
        return Exit::NoMemory;
    };
    let shown = shows_journal.then_some(&*journal);
    match write_rest(alloc, &summary.report, shown, sink) {
        Ok(()) => Exit::finished(summary.end),
        Err(WriteFault::WriteFailed) => Exit::SinkFault,
        Err(WriteFault::OutOfMemory) => Exit::NoMemory,
    }
}

/// Runs the application that the words ask for, and answers the exit status.
///
/// The words are one word FILE; `--journal` and FILE, in either order; or `--make N` or `--make=N` with N from 1 to 60.
/// The checks come in this order: the words, the opening, the reading, the size, the text, the cost. The journal is
/// emptied first; at a refusal and a fault of the source it stays empty. All texts go to the sink, and are handed on:
/// what the tasks write to the console while they run, the report, and with `--journal` the journal's text.
pub fn run<S: Shelf, K: Sink, G: Gate>(
    alloc: Global,
    words: &[String],
    shelf: &mut S,
    sink: &mut K,
    gate: &G,
    journal: &mut Journal,
) -> u8
    // The status, the journal and the bytes written, by some files: those that the shelf tells, where it tells any.
    ensures leaves { LeavesBy result (S.content shelf.old) (map string_bytes words.now)
        journal.new.entries (K.written sink.old) (K.written sink.new) }
    // Where nothing outside fails, an accepted application is run and a refused one is refused.
    ensures complete { IfTold (S.content shelf.old) (λ content. Completes result
        (Rose (S.faults shelf.old) (S.faults shelf.new)) (Rose (K.faults sink.old) (K.faults sink.new))
        (check_of content.files (map string_bytes words.now))) }
    // A fault is answered exactly where its count rose in this call.
    ensures faults { TellsFaults result
        (S.faults shelf.old) (S.faults shelf.new) (K.faults sink.old) (K.faults sink.new) }
    // A text that was written whole is handed on.
    ensures handed { result ≤ 3 → K.flushed sink.new ≡ K.written sink.new }
    // Where the words name no file, the shelf is not asked.
    ensures untouched { asks_file (asked_for (map string_bytes words.now)) ≡ false → shelf.new ≡ shelf.old }
{
    run_exit(alloc, words, shelf, sink, gate, journal).number()
}

fn run_exit<S: Shelf, K: Sink, G: Gate>(
    alloc: Global,
    words: &[String],
    shelf: &mut S,
    sink: &mut K,
    gate: &G,
    journal: &mut Journal,
) -> Exit
    ensures leaves { LeavesFor result (S.content shelf.old) (map string_bytes words.now)
        journal.new.entries (K.written sink.old) (K.written sink.new) }
    ensures faults { TellsFaults (exit_number result)
        (S.faults shelf.old) (S.faults shelf.new) (K.faults sink.old) (K.faults sink.new) }
    ensures handed { exit_number result ≤ 3 → K.flushed sink.new ≡ K.written sink.new }
    ensures untouched { asks_file (asked_for (map string_bytes words.now)) ≡ false → shelf.new ≡ shelf.old }
{
    journal.clear();
    let Some(request) = request_of(words) else {
        return refuse(alloc, Refusal::Usage, sink);
    };
    match load(alloc, request, shelf) {
        Ok(app) => execute(alloc, &app, request.shows_journal(), sink, gate, journal),
        Err(Stop::Refused(refusal)) => refuse(alloc, refusal, sink),
        Err(Stop::Source) => Exit::SourceFault,
        Err(Stop::Memory) => Exit::NoMemory,
    }
}
