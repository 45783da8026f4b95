//! Bytes in quotes, the text of a journal, the console text, and the application that is made.

use osal_base::{Answer, Bytes, Moment, OsalId, OutOfMemory, Reply, Timeout};
use osal_call::{Call, Entry, Journal};
use osal_journal::journal_text;
use osal_make::make_app;
use osal_report::console_text;
use osal_spelling::quote;
use std::alloc::Global;
use std::process::Abort;
use std::test::Fail;

#[test]
fn bytes_that_are_not_printable_are_escaped(rt: HostRuntime) -> Result<(), Fail> {
    for (bytes, text) in [
        (b"a\"\0".as_slice(), b"\"a\\\"\\x00\"".as_slice()),
        (b"\\n".as_slice(), b"\"\\\\n\"".as_slice()),
        (b" ~\x7f\xff".as_slice(), b"\" ~\\x7f\\xff\"".as_slice()),
    ] {
        assert!(rt; quote(rt.alloc(), bytes)?.as_slice() == text);
    }
    Ok(())
}

/// A journal of one entry for each of some calls, all answered with success.
fn journal_of(alloc: Global, calls: Vec<Call>) -> Result<Journal, OutOfMemory> {
    let mut journal = Journal::new(alloc);
    for call in calls {
        journal.reserve(1)?;
        journal.push(Entry {
            caller: 2,
            task: OsalId::of_raw(0x0001_0001),
            now: Moment { ms: 7 },
            call,
            reply: Reply {
                answer: Answer::Code(0),
                number: 0,
                bytes: Bytes::new(alloc),
            },
        });
    }
    Ok(journal)
}

/// Calls on the console, of which the second write comes while it takes none.
fn console_calls(alloc: Global) -> Result<Vec<Call>, OutOfMemory> {
    let mut calls = Vec::new(alloc);
    calls.push(Call::ConsoleWrite {
        payload: Bytes::copy(alloc, b"a\n")?,
    })?;
    calls.push(Call::ConsoleDisable)?;
    calls.push(Call::ConsoleWrite {
        payload: Bytes::copy(alloc, b"b")?,
    })?;
    calls.push(Call::ConsoleEnable)?;
    calls.push(Call::ConsoleWrite {
        payload: Bytes::copy(alloc, b"c")?,
    })?;
    Ok(calls)
}

#[test]
fn a_disabled_console_shows_nothing(rt: HostRuntime) -> Result<(), Fail> {
    let journal = journal_of(rt.alloc(), console_calls(rt.alloc())?)?;
    assert!(rt; console_text(rt.alloc(), &journal)?.as_slice() == b"a\nc".as_slice());
    Ok(())
}

const TEXT: &str = "osal-journal 1
0 2 0x00010001 7 bin_sem_take 0x00040001 check => 0 0 \"\"
1 2 0x00010001 7 bin_sem_take 0x00040001 check => 0 0 \"\"
2 2 0x00010001 7 bin_sem_take 0x00040001 pend => 0 0 \"\"
3 2 0x00010001 7 bin_sem_take 0x00040001 50 => 0 0 \"\"
4 2 0x00010001 7 console_write \"a\\x0a\" => 0 0 \"\"
5 2 0x00010001 7 drain 1024 => 0 0 \"\"
";

/// Takes with each wait, a write to the console, and a drain.
fn spelled_calls(alloc: Global) -> Result<Vec<Call>, OutOfMemory> {
    let id = OsalId::of_raw(0x0004_0001);
    let mut calls = Vec::new(alloc);
    for wait in [
        Timeout::Check,
        Timeout::Ms(0),
        Timeout::Pend,
        Timeout::Ms(50),
    ] {
        calls.push(Call::BinSemTake { id, wait })?;
    }
    calls.push(Call::ConsoleWrite {
        payload: Bytes::copy(alloc, b"a\n")?,
    })?;
    calls.push(Call::Drain { n: 1024 })?;
    Ok(calls)
}

#[test]
fn a_journal_has_a_line_for_each_entry(rt: HostRuntime) -> Result<(), Fail> {
    let journal = journal_of(rt.alloc(), spelled_calls(rt.alloc())?)?;
    let text = journal_text(rt.alloc(), &journal)?;
    assert!(rt; text.as_slice() == TEXT.as_bytes());
    Ok(())
}

#[test]
fn a_made_application_costs_what_its_lines_do(rt: HostRuntime) -> Result<(), Fail> {
    let least = make_app(rt.alloc(), 1)?;
    assert!(rt; least.cost() == 4_030);
    let greatest = make_app(rt.alloc(), 60)?;
    assert!(rt; greatest.cost() == 241_387);
    Ok(())
}
