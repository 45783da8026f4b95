//! The entries of a run's journal, one by one.

use crate::fixture::{FIRST_PATH, TIMEOUT, Told, has_entries, run_text};
use osal_base::Answer;
use std::test::Fail;

/// The entries of the first path.
const ENTRIES: [Told; 7] = [
    ("task_create", 0, 0, 0, Answer::Code(0), 65537),
    ("checkpoint", 2, 65537, 0, Answer::Go, 0),
    ("bin_sem_create", 2, 65537, 0, Answer::Code(0), 262145),
    ("checkpoint", 2, 65537, 0, Answer::Go, 0),
    ("bin_sem_take", 2, 65537, 0, Answer::Code(0), 0),
    ("checkpoint", 2, 65537, 0, Answer::Go, 0),
    ("task_exit", 2, 65537, 0, Answer::Code(0), 0),
];

#[test]
fn the_journal_has_each_call_with_its_reply(rt: HostRuntime) -> Result<(), Fail> {
    let ran = run_text(&rt, rt.alloc(), FIRST_PATH.as_bytes())?;
    assert!(rt; has_entries(&ran.journal, &ENTRIES));
    Ok(())
}

/// The entries of a get that is due.
const ENTRIES_OF_A_TIMEOUT: [Told; 9] = [
    ("task_create", 0, 0, 0, Answer::Code(0), 65537),
    ("checkpoint", 2, 65537, 0, Answer::Go, 0),
    ("queue_create", 2, 65537, 0, Answer::Code(0), 131073),
    ("checkpoint", 2, 65537, 0, Answer::Go, 0),
    ("queue_get", 2, 65537, 0, Answer::Waits, 0),
    ("advance", 0, 0, 0, Answer::Code(0), 0),
    ("wait_end", 2, 65537, 50, Answer::Code(-10), 0),
    ("checkpoint", 2, 65537, 50, Answer::Go, 0),
    ("task_exit", 2, 65537, 50, Answer::Code(0), 0),
];

#[test]
fn a_get_that_is_due_has_its_entries(rt: HostRuntime) -> Result<(), Fail> {
    let ran = run_text(&rt, rt.alloc(), TIMEOUT.as_bytes())?;
    assert!(rt; has_entries(&ran.journal, &ENTRIES_OF_A_TIMEOUT));
    Ok(())
}
