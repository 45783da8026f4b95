//! Writes, reads or copies a file of a volume, or as many bytes of a vector, as often as its words say.
#![tactic(auto)]

mod task;
mod vector;
mod volume;

use std::alloc::Global;
use std::env;
use std::process::ExitCode;
use task::{Store, Task, task_of};

/// The status where the words are no task.
const USAGE: u8 = 2;

/// The status where there was no memory, or a store did not do as it should.
const FAILED: u8 = 1;

fn main(rt: HostRuntime) -> ExitCode {
    let Ok(given) = env::args(&rt) else {
        return ExitCode::from(USAGE);
    };
    let Ok(words) = given.skip(1).collect::<Vec<String>>(rt.alloc()) else {
        return ExitCode::from(FAILED);
    };
    let Some(task) = task_of(words.as_slice()) else {
        return ExitCode::from(USAGE);
    };
    if is_done(rt.alloc(), task) && println!(rt; "done").is_ok() {
        return ExitCode::SUCCESS;
    }
    ExitCode::from(FAILED)
}

fn is_done(alloc: Global, task: Task) -> bool {
    match task.store {
        Store::Volume => volume::carry_out(alloc, task).is_some(),
        Store::Vector => vector::carry_out(alloc, task).is_some(),
    }
}
