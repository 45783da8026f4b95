//! Runs each application that the words name, and writes its name, its output and its status.
#![tactic(auto)]

use osal_call::Journal;
use osal_exec::FreeGate;
use osal_outside::{HostShelf, HostSink, Shelf, Sink, WriteFailed, send_all};
use osal_run::run;
use std::alloc::{AllocError, Global};
use std::env;
use std::process::ExitCode;

/// The status where the words are no text, there is no memory for them, or the output is not taken.
const FAILED: u8 = 9;

/// The last digit of a status as text: no status has two.
fn digit(status: u8) -> u8 {
    b'0' + status % 10
}

/// Runs the application of this name, between two lines that tell its name and its status.
fn run_one<S: Shelf, K: Sink>(
    alloc: Global,
    name: &[String],
    shelf: &mut S,
    sink: &mut K,
) -> Result<(), WriteFailed> {
    let mut journal = Journal::new(alloc);
    for word in name {
        send_all(sink, b"== ")?;
        send_all(sink, word.as_bytes())?;
        send_all(sink, b"\n")?;
    }
    let status = run(alloc, name, shelf, sink, &FreeGate, &mut journal);
    send_all(sink, b"== status ")?;
    send_all(sink, &[digit(status), b'\n'])
}

/// Runs one application after the other.
fn run_all<S: Shelf, K: Sink>(
    alloc: Global,
    names: &[String],
    shelf: &mut S,
    sink: &mut K,
) -> Result<(), WriteFailed> {
    for name in names.chunks(1) {
        run_one(alloc, name, shelf, sink)?;
    }
    sink.flush()
}

fn main(rt: HostRuntime) -> ExitCode {
    let Ok(given) = env::args(&rt) else {
        return ExitCode::from(FAILED);
    };
    let Ok(names) = given.skip(1).collect::<Vec<String>>(rt.alloc()) else {
        return ExitCode::from(FAILED);
    };
    let files: Result<HostRuntime, AllocError> = rt.clone();
    let Ok(files) = files else {
        return ExitCode::from(FAILED);
    };
    let mut shelf = HostShelf::new(files);
    let alloc = rt.alloc();
    let mut sink = HostSink::new(rt);
    match run_all(alloc, names.as_slice(), &mut shelf, &mut sink) {
        Ok(()) => ExitCode::SUCCESS,
        Err(WriteFailed) => ExitCode::from(FAILED),
    }
}
