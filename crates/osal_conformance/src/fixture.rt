//! A run over one file in memory.

use osal_base::{Answer, Bytes};
use osal_call::{Call, Entry, Journal};
use osal_exec::{FreeGate, Gate};
use osal_outside::{MemShelf, MemSink};
use osal_run::run;
use std::alloc::Global;
use std::process::Abort;
use std::test::Fail;

/// An application whose task creates a semaphore and takes it.
pub const FIRST_PATH: &str = "osal-app 1
task main
bin_sem_create $s \"s\" 1 -> OS_SUCCESS 0x00040001
bin_sem_take $s check -> OS_SUCCESS
end
";

/// Its report.
pub const FIRST_PATH_REPORT: &str = "[BEGIN] 0x00010001 main
[ PASS] 1 line 3 bin_sem_create OS_SUCCESS 0x00040001
[ PASS] 2 line 4 bin_sem_take OS_SUCCESS
[  END] 0x00010001 main DONE PASS 2 FAIL 0
[TOTAL] TASKS 1 PASS 2 FAIL 0
";

/// An application whose task waits until it is due.
pub const TIMEOUT: &str = "osal-app 1
task main
queue_create $q \"q\" 2 4
queue_get $q 4 50 -> OS_QUEUE_TIMEOUT
end
";

/// The calls that fail, and the most bytes of one.
#[derive(Clone, Copy)]
pub struct Faults {
    pub grain: u32,
    pub shelf_call: Option<u64>,
    pub sink_call: Option<u64>,
}

/// No call fails.
pub const NO_FAULTS: Faults = Faults {
    grain: 64,
    shelf_call: None,
    sink_call: None,
};

/// What a run left.
#[derive(Drop)]
pub struct Ran {
    pub status: u8,
    pub written: Vec<u8>,
    pub journal: Journal,
}

/// The numbers of the calls that fail.
fn plan(alloc: Global, call: Option<u64>) -> Result<Vec<u64>, Fail> {
    let mut calls = Vec::new(alloc);
    if let Some(call) = call {
        calls.push(call)?;
    }
    Ok(calls)
}

/// Runs `osal-run` with these words on a shelf whose one file is `app` with this text.
pub fn run_words(
    rt: &impl Abort,
    alloc: Global,
    words: &[&str],
    text: &[u8],
    faults: Faults,
) -> Result<Ran, Fail> {
    run_through(rt, alloc, words, text, faults, &FreeGate)
}

/// A shelf whose one file is `app` with this text.
fn shelf_of(rt: &impl Abort, alloc: Global, text: &[u8], faults: Faults) -> Result<MemShelf, Fail> {
    let plan = plan(alloc, faults.shelf_call)?;
    let file = (String::from_str(alloc, "app")?, Bytes::copy(alloc, text)?);
    let files = vec![in alloc; file]?;
    assert!(rt; !MemShelf::has_twins(&files));
    Ok(MemShelf::new(files, faults.grain.max(1), plan))
}

/// A sink with room for a mebibyte.
fn sink_of(alloc: Global, faults: Faults) -> Result<MemSink, Fail> {
    let plan = plan(alloc, faults.sink_call)?;
    Ok(MemSink::new(alloc, 1 << 20, faults.grain.max(1), plan)?)
}

/// The words of a command.
fn words_of(alloc: Global, words: &[&str]) -> Result<Vec<String>, Fail> {
    let mut given = Vec::new(alloc);
    for word in words {
        given.push(String::from_str(alloc, *word)?)?;
    }
    Ok(given)
}

/// What a run with this status left in a sink and in a journal.
fn ran_of(alloc: Global, status: u8, sink: &MemSink, journal: Journal) -> Result<Ran, Fail> {
    let written = Vec::from_slice(alloc, sink.written())?;
    Ok(Ran {
        status,
        written,
        journal,
    })
}

/// The same through a gate.
pub fn run_through<G: Gate>(
    rt: &impl Abort,
    alloc: Global,
    words: &[&str],
    text: &[u8],
    faults: Faults,
    gate: &G,
) -> Result<Ran, Fail> {
    let given = words_of(alloc, words)?;
    let mut shelf = shelf_of(rt, alloc, text, faults)?;
    let mut sink = sink_of(alloc, faults)?;
    let mut journal = Journal::new(alloc);
    let status = run(alloc, &given, &mut shelf, &mut sink, gate, &mut journal);
    ran_of(alloc, status, &sink, journal)
}

/// Runs `osal-run app` on this text.
pub fn run_text(rt: &impl Abort, alloc: Global, text: &[u8]) -> Result<Ran, Fail> {
    run_words(rt, alloc, &["app"], text, NO_FAULTS)
}

/// Whether a run on this text has this status and output.
pub fn has_output(
    rt: &impl Abort,
    alloc: Global,
    text: &str,
    status: u8,
    output: &str,
) -> Result<bool, Fail> {
    let ran = run_text(rt, alloc, text.as_bytes())?;
    Ok(ran.status == status && ran.written.as_slice() == output.as_bytes())
}

/// Whether a run with these words has this status and output, and makes no call.
pub fn makes_no_call(
    rt: &impl Abort,
    alloc: Global,
    words: &[&str],
    text: &[u8],
    faults: Faults,
    status: u8,
    output: &str,
) -> Result<bool, Fail> {
    let ran = run_words(rt, alloc, words, text, faults)?;
    let same = ran.status == status && ran.written.as_slice() == output.as_bytes();
    Ok(same && ran.journal.len() == 0)
}

/// An entry: the name of its call, its caller, its task, its moment, its answer and its number.
pub type Told = (&'static str, u32, u32, u64, Answer, u64);

/// The name of a call that the journals of the rows have.
fn name_of(call: &Call) -> &'static str {
    match call {
        Call::TaskCreate { .. } => "task_create",
        Call::TaskExit => "task_exit",
        Call::Checkpoint => "checkpoint",
        Call::QueueCreate { .. } => "queue_create",
        Call::QueueGet { .. } => "queue_get",
        Call::BinSemCreate { .. } => "bin_sem_create",
        Call::BinSemTake { .. } => "bin_sem_take",
        Call::Advance { .. } => "advance",
        Call::WaitEnd { .. } => "wait_end",
        _ => "another call",
    }
}

/// Whether an entry is this one, with no bytes in its reply.
fn is_told(entry: &Entry, told: &Told) -> bool {
    let (name, caller, task, now, answer, number) = *told;
    let made = name_of(&entry.call) == name
        && entry.caller == caller
        && entry.task.raw() == task
        && entry.now.ms == now;
    let reply = &entry.reply;
    made && reply.answer == answer && reply.number == number && reply.bytes.as_slice().is_empty()
}

/// Whether a journal has just these entries, and no reply has bytes.
pub fn has_entries(journal: &Journal, wanted: &[Told]) -> bool {
    for (entry, told) in journal.entries().iter().zip(wanted.iter()) {
        if !is_told(entry, told) {
            return false;
        }
    }
    journal.entries().len() == wanted.len()
}
