//! `osal-run`: runs an application file and writes its report to standard output.
#![tactic(auto)]

use osal_call::Journal;
use osal_exec::FreeGate;
use osal_outside::{HostShelf, HostSink};
use osal_run::run;
use std::alloc::AllocError;
use std::env;
use std::process::ExitCode;

/// The status where the system does not give the words as text.
const NO_WORDS: u8 = 9;

/// The status where there is no memory for the words.
const NO_MEMORY: u8 = 6;

fn main(rt: HostRuntime) -> ExitCode {
    let Ok(given) = env::args(&rt) else {
        return ExitCode::from(NO_WORDS);
    };
    let Ok(words) = given.skip(1).collect::<Vec<String>>(rt.alloc()) else {
        return ExitCode::from(NO_MEMORY);
    };
    let files: Result<HostRuntime, AllocError> = rt.clone();
    let Ok(files) = files else {
        return ExitCode::from(NO_MEMORY);
    };
    let mut shelf = HostShelf::new(files);
    let alloc = rt.alloc();
    let mut sink = HostSink::new(rt);
    let mut journal = Journal::new(alloc);
    ExitCode::from(run(
        alloc,
        &words,
        &mut shelf,
        &mut sink,
        &FreeGate,
        &mut journal,
    ))
}
