//! What journals are reported as, line by line.
use osal_base::{Answer, Bytes, Moment, OsalId, OutOfMemory, Reply, Timeout};
use osal_call::{Call, Entry, Journal};
use osal_reading::parse;
use osal_report::{end_of_all, report};
use osal_script::App;
use std::alloc::Global;
use std::process::Abort;
use std::test::Fail;

const SUCCESS: Answer = Answer::Code(0);

const TIMED_OUT: Answer = Answer::Code(-7);

const MAIN: u32 = 0x0001_0001;

const OTHER: u32 = 0x0001_0002;

/// The application of a text.
fn app_of(rt: &impl Abort, alloc: Global, text: &[u8]) -> App {
    assert!(rt; text.len() < 1000000);
    match parse(alloc, text) {
        Ok(app) => app,
        Err(_) => panic!(rt; "refused"),
    }
}

/// A call of an entry.
#[derive(Clone, Copy)]
enum Made {
    /// The creation of a task under a name, with the body of that number.
    Start(&'static [u8], u32),
    Create,
    Take,
    Get,
    Exit,
    Checkpoint,
    End,
    Abandon,
}

use Made::{Abandon, Checkpoint, Create, End, Exit, Get, Start, Take};

/// The task of an entry, its call, its answer, its number and its bytes.
type Row = (u32, Made, Answer, u64, &'static [u8]);

fn start_call(alloc: Global, name: &[u8], body: u32) -> Result<Call, OutOfMemory> {
    Ok(Call::TaskCreate {
        name: Bytes::copy(alloc, name)?,
        body,
        stack: 0,
        priority: 0,
    })
}

fn create_call(alloc: Global) -> Result<Call, OutOfMemory> {
    Ok(Call::BinSemCreate {
        name: Bytes::copy(alloc, b"s")?,
        value: 1,
    })
}

fn call_of(alloc: Global, made: Made) -> Result<Call, OutOfMemory> {
    match made {
        Start(name, body) => start_call(alloc, name, body),
        Create => create_call(alloc),
        Take => Ok(Call::BinSemTake {
            id: OsalId::of_raw(0x0004_0001),
            wait: Timeout::Check,
        }),
        Get => Ok(Call::QueueGet {
            id: OsalId::of_raw(0x0002_0001),
            n: 4,
            wait: Timeout::Check,
        }),
        Exit => Ok(Call::TaskExit),
        Checkpoint => Ok(Call::Checkpoint),
        End => Ok(Call::WaitEnd { part: 3 }),
        Abandon => Ok(Call::WaitAbandon { part: 3 }),
    }
}

/// Whether a call stands behind a checkpoint, as one of a line does.
fn is_of_line(task: u32, made: Made) -> bool {
    match made {
        Start(..) => task != 0,
        Create | Take | Get | Exit => true,
        Checkpoint | End | Abandon => false,
    }
}

fn reply_of(
    alloc: Global,
    answer: Answer,
    number: u64,
    bytes: &[u8],
) -> Result<Reply, OutOfMemory> {
    Ok(Reply {
        answer,
        number,
        bytes: Bytes::copy(alloc, bytes)?,
    })
}

fn entry_of(task: u32, call: Call, reply: Reply) -> Entry {
    Entry {
        caller: if task == 0 { 0 } else { 1 + task % 65536 % 64 },
        task: OsalId::of_raw(task),
        now: Moment::START,
        call,
        reply,
    }
}

/// One more entry.
fn add(alloc: Global, journal: &mut Journal, row: Row) -> Result<(), OutOfMemory> {
    let (task, made, answer, number, bytes) = row;
    journal.reserve(1)?;
    let reply = reply_of(alloc, answer, number, bytes)?;
    let call = call_of(alloc, made)?;
    journal.push(entry_of(task, call, reply));
    Ok(())
}

/// The entry of a row, behind a checkpoint at which its task goes on where it is of a line.
fn write(alloc: Global, journal: &mut Journal, row: Row) -> Result<(), OutOfMemory> {
    let (task, made, _, _, _) = row;
    if is_of_line(task, made) {
        add(alloc, journal, (task, Checkpoint, Answer::Go, 0, b""))?;
    }
    add(alloc, journal, row)
}

fn write_all(alloc: Global, journal: &mut Journal, tables: &[&[Row]]) -> Result<(), OutOfMemory> {
    for rows in tables {
        for row in rows.iter() {
            write(alloc, journal, *row)?;
        }
    }
    Ok(())
}

/// Whether the report of a journal is this text, and its scripts end so: with an open wait, with a case that fails.
fn is_reported(
    alloc: Global,
    app: &App,
    journal: &Journal,
    want: &[u8],
    end: (bool, bool),
) -> bool {
    let ends = end_of_all(app, journal.entries());
    match report(alloc, app, journal) {
        Ok(text) => { text.as_slice() == want && ends.stalled == end.0 && ends.fails == end.1 }
        Err(_) => false,
    }
}

/// The same of the journal with the rows of these tables.
fn reports(alloc: Global, app: &App, tables: &[&[Row]], want: &[u8], end: (bool, bool)) -> bool {
    let mut journal = Journal::new(alloc);
    write_all(alloc, &mut journal, tables).is_ok() && is_reported(alloc, app, &journal, want, end)
}

/// The first task is created.
const BEGUN: [Row; 1] = [(0, Start(b"main", 0), SUCCESS, 0x0001_0001, b"")];

const FIRST_PATH: &str =
    "osal-app 1\ntask main\nbin_sem_create $s \"s\" 1 -> OS_SUCCESS 0x00040001\nbin_sem_take $s check -> OS_SUCCESS\nend\n";

const CREATED: [Row; 1] = [(MAIN, Create, SUCCESS, 0x0004_0001, b"")];

const TAKEN: [Row; 2] = [(MAIN, Take, SUCCESS, 0, b""), (MAIN, Exit, SUCCESS, 0, b"")];

const NOT_TAKEN: [Row; 2] = [
    (MAIN, Take, TIMED_OUT, 0, b""),
    (MAIN, Exit, SUCCESS, 0, b""),
];

const PASSED: &[u8] = b"[BEGIN] 0x00010001 main\n\
    [ PASS] 1 line 3 bin_sem_create OS_SUCCESS 0x00040001\n\
    [ PASS] 2 line 4 bin_sem_take OS_SUCCESS\n\
    [  END] 0x00010001 main DONE PASS 2 FAIL 0\n\
    [TOTAL] TASKS 1 PASS 2 FAIL 0\n";

const FAILED: &[u8] = b"[BEGIN] 0x00010001 main\n\
    [ PASS] 1 line 3 bin_sem_create OS_SUCCESS 0x00040001\n\
    [ FAIL] 2 line 4 bin_sem_take OS_SEM_TIMEOUT expected OS_SUCCESS\n\
    [  END] 0x00010001 main DONE PASS 1 FAIL 1\n\
    [TOTAL] TASKS 1 PASS 1 FAIL 1\n";

#[test]
fn a_run_is_reported_line_by_line(rt: HostRuntime) {
    let app = app_of(&rt, rt.alloc(), FIRST_PATH.as_bytes());
    let passes = [BEGUN.as_slice(), &CREATED, &TAKEN];
    assert!(rt; reports(rt.alloc(), &app, &passes, PASSED, (false, false)));
    let fails = [BEGUN.as_slice(), &CREATED, &NOT_TAKEN];
    assert!(rt; reports(rt.alloc(), &app, &fails, FAILED, (false, true)));
}

/// The application with these lines in its body, from line 3 on.
fn with_lines(alloc: Global, lines: &str) -> Result<Vec<u8>, Fail> {
    let mut text = Vec::from_slice(alloc, b"osal-app 1\ntask main\n".as_slice())?;
    text.extend_from_slice(lines.as_bytes())?;
    text.extend_from_slice(b"\nend\n".as_slice())?;
    Ok(text)
}

/// Whether the second line of the report of a journal is this one.
fn has_line(alloc: Global, app: &App, journal: &Journal, want: &[u8]) -> bool {
    match report(alloc, app, journal) {
        Ok(text) => text.as_slice().split(|byte| *byte == b'\n').nth(1) == Some(want),
        Err(_) => false,
    }
}

/// Whether the one line of an application that gets this reply is reported so.
fn shows(alloc: Global, app: &App, row: Row, want: &[u8]) -> bool {
    let mut journal = Journal::new(alloc);
    write_all(alloc, &mut journal, &[&BEGUN, &[row]]).is_ok()
        && has_line(alloc, app, &journal, want)
}

/// The lines of a body, the one call in it, its answer, its number and its bytes, and the line reported.
type Shown = (
    &'static str,
    Made,
    Answer,
    u64,
    &'static [u8],
    &'static [u8],
);

fn is_shown(rt: &impl Abort, alloc: Global, shown: Shown) -> Result<bool, Fail> {
    let (lines, made, answer, number, bytes, want) = shown;
    let text = with_lines(alloc, lines)?;
    let app = app_of(rt, alloc, text.as_slice());
    Ok(shows(alloc, &app, (MAIN, made, answer, number, bytes), want))
}

const TAKES: [Shown; 4] = [
    (
        "# a comment\nbin_sem_take $s check -> OS_SUCCESS \"a\\\"\\\\\\x00\\xff ~\\x7f\"",
        Take,
        SUCCESS,
        0,
        b"a\"\\\x00\xff ~\x7f",
        br#"[ PASS] 1 line 4 bin_sem_take OS_SUCCESS "a\"\\\x00\xff ~\x7f""#,
    ),
    (
        "# a comment\nbin_sem_take $s check -> OS_SUCCESS \"ab\"",
        Take,
        SUCCESS,
        0,
        b"a",
        br#"[ FAIL] 1 line 4 bin_sem_take OS_SUCCESS "a" expected OS_SUCCESS "ab""#,
    ),
    (
        "# a comment\nbin_sem_take $s check -> OS_SUCCESS \"\"",
        Take,
        Answer::Code(-3),
        0,
        b"",
        br#"[ FAIL] 1 line 4 bin_sem_take -3 "" expected OS_SUCCESS """#,
    ),
    (
        "# a comment\nbin_sem_take $s check -> OS_SUCCESS \"\"",
        Take,
        Answer::Deleted,
        0,
        b"",
        br#"[ FAIL] 1 line 4 bin_sem_take deleted "" expected OS_SUCCESS """#,
    ),
];

#[test]
fn a_line_shows_what_it_got_and_what_it_wanted(rt: HostRuntime) -> Result<(), Fail> {
    for (row, shown) in TAKES.iter().enumerate() {
        let same = is_shown(&rt, rt.alloc(), *shown)?;
        assert!(rt; same, "row {row}");
    }
    Ok(())
}

const GETS: [Shown; 2] = [
    (
        "# a comment\nqueue_get $q 4 check -> OS_SUCCESS \"a\\x00\"",
        Get,
        SUCCESS,
        2,
        b"a\x00",
        br#"[ PASS] 1 line 4 queue_get OS_SUCCESS "a\x00""#,
    ),
    (
        "# a comment\nqueue_get $q 4 check -> OS_SUCCESS \"a\\x00\"",
        Get,
        SUCCESS,
        2,
        b"a",
        br#"[ FAIL] 1 line 4 queue_get OS_SUCCESS "a" expected OS_SUCCESS "a\x00""#,
    ),
];

#[test]
fn a_message_stands_in_quotes(rt: HostRuntime) -> Result<(), Fail> {
    for (row, shown) in GETS.iter().enumerate() {
        let same = is_shown(&rt, rt.alloc(), *shown)?;
        assert!(rt; same, "row {row}");
    }
    Ok(())
}

const NUMBERS: [Shown; 3] = [
    (
        "bin_sem_create $s \"s\" 1 -> OS_SUCCESS 4294967295",
        Create,
        SUCCESS,
        0x0004_000A,
        b"",
        b"[ FAIL] 1 line 3 bin_sem_create OS_SUCCESS 0x0004000a expected OS_SUCCESS 0xffffffff",
    ),
    (
        "bin_sem_create $s \"s\" 1 -> OS_SUCCESS 4294967296",
        Create,
        SUCCESS,
        0x0004_000A,
        b"",
        b"[ FAIL] 1 line 3 bin_sem_create OS_SUCCESS 0x0004000a expected OS_SUCCESS 4294967296",
    ),
    (
        "# a comment\nbin_sem_take $s check -> OS_SUCCESS 0",
        Take,
        SUCCESS,
        9,
        b"",
        b"[ FAIL] 1 line 4 bin_sem_take OS_SUCCESS 9 expected OS_SUCCESS 0",
    ),
];

#[test]
fn a_number_is_an_identifier_where_the_call_gives_one(rt: HostRuntime) -> Result<(), Fail> {
    for (row, shown) in NUMBERS.iter().enumerate() {
        let same = is_shown(&rt, rt.alloc(), *shown)?;
        assert!(rt; same, "row {row}");
    }
    Ok(())
}

const ONE_TAKE: &str = "osal-app 1\ntask main\n# a comment\nbin_sem_take $s check\nend\n";

const CUT: [Row; 2] = [
    (0, Start(b"two\nlines", 0), SUCCESS, 0x0001_0001, b""),
    (MAIN, Take, TIMED_OUT, 0, b""),
];

const CUT_REPORT: &[u8] = b"[BEGIN] 0x00010001 two\nlines\n\
    [  END] 0x00010001 two\nlines CUT PASS 0 FAIL 0\n\
    [TOTAL] TASKS 1 PASS 0 FAIL 0\n";

const DELETED: [Row; 1] = [(MAIN, Checkpoint, Answer::Deleted, 0, b"")];

const DELETED_REPORT: &[u8] = b"[BEGIN] 0x00010001 main\n\
    [  END] 0x00010001 main DELETED PASS 0 FAIL 0\n\
    [TOTAL] TASKS 1 PASS 0 FAIL 0\n";

#[test]
fn a_segment_ends_as_its_task_did(rt: HostRuntime) {
    let app = app_of(&rt, rt.alloc(), ONE_TAKE.as_bytes());
    let none: &[u8] = b"[TOTAL] TASKS 0 PASS 0 FAIL 0\n";
    assert!(rt; reports(rt.alloc(), &app, &[], none, (false, false)));
    assert!(rt; reports(rt.alloc(), &app, &[&CUT], CUT_REPORT, (false, false)));
    let deleted = [BEGUN.as_slice(), &DELETED];
    assert!(rt; reports(rt.alloc(), &app, &deleted, DELETED_REPORT, (false, false)));
}

/// Two tasks that wait for semaphores which nobody gives.
const TWO_STALL: &[u8] = b"[BEGIN] 0x00010001 main\n\
    [STALL] line 6 bin_sem_take\n\
    [  END] 0x00010001 main STALLED PASS 0 FAIL 0\n\
    [BEGIN] 0x00010002 w\n\
    [STALL] line 10 bin_sem_take\n\
    [  END] 0x00010002 w STALLED PASS 0 FAIL 0\n\
    [TOTAL] TASKS 2 PASS 0 FAIL 0\n";

/// The same, where the first wait timed out, and the second task was deleted in its wait and has still to give it up.
const ONE_STALLS: &[u8] = b"[BEGIN] 0x00010001 main\n\
    [ FAIL] 1 line 6 bin_sem_take OS_SEM_TIMEOUT expected OS_SUCCESS\n\
    [  END] 0x00010001 main DONE PASS 0 FAIL 1\n\
    [BEGIN] 0x00010002 w\n\
    [STALL] line 10 bin_sem_take\n\
    [  END] 0x00010002 w STALLED PASS 0 FAIL 0\n\
    [TOTAL] TASKS 2 PASS 0 FAIL 1\n";

/// The same, where the second task has given its wait up.
const NONE_STALLS: &[u8] = b"[BEGIN] 0x00010001 main\n\
    [ FAIL] 1 line 6 bin_sem_take OS_SEM_TIMEOUT expected OS_SUCCESS\n\
    [  END] 0x00010001 main DONE PASS 0 FAIL 1\n\
    [BEGIN] 0x00010002 w\n\
    [  END] 0x00010002 w DELETED PASS 0 FAIL 0\n\
    [TOTAL] TASKS 2 PASS 0 FAIL 1\n";

const TWO_TASKS: &str =
    "osal-app 1\ntask main\n# a comment\n# and another\ntask_create $t \"w\" w 0 1\nbin_sem_take $s check -> OS_SUCCESS\nend\ntask w\n# a comment\nbin_sem_take $s check -> OS_SUCCESS\nend\n";

/// Two tasks wait.
const WAITING: [Row; 4] = [
    (0, Start(b"main", 0), SUCCESS, 0x0001_0001, b""),
    (MAIN, Start(b"w", 1), SUCCESS, 0x0001_0002, b""),
    (MAIN, Take, Answer::Waits, 0, b""),
    (OTHER, Take, Answer::Waits, 0, b""),
];

/// The first wait times out, and the second task is deleted.
const LATE: [Row; 3] = [
    (MAIN, End, TIMED_OUT, 0, b""),
    (MAIN, Exit, SUCCESS, 0, b""),
    (OTHER, Checkpoint, Answer::Deleted, 0, b""),
];

/// The second task gives its wait up.
const GIVEN_UP: [Row; 1] = [(OTHER, Abandon, SUCCESS, 0, b"")];

#[test]
fn a_task_stalls_while_its_wait_is_open(rt: HostRuntime) {
    let app = app_of(&rt, rt.alloc(), TWO_TASKS.as_bytes());
    assert!(rt; reports(rt.alloc(), &app, &[&WAITING], TWO_STALL, (true, false)));
    let late = [WAITING.as_slice(), &LATE];
    assert!(rt; reports(rt.alloc(), &app, &late, ONE_STALLS, (true, true)));
    let given_up = [WAITING.as_slice(), &LATE, &GIVEN_UP];
    assert!(rt; reports(rt.alloc(), &app, &given_up, NONE_STALLS, (false, true)));
}

/// The task that has the identifier first exits; a creation that is refused, one of a body that is not there, and the
/// second task of the identifier follow.
const TWICE: &[u8] = b"[BEGIN] 0x00010001 main\n\
    [ PASS] 1 line 5 task_create OS_SUCCESS 0x00010002\n\
    [  END] 0x00010001 main CUT PASS 1 FAIL 0\n\
    [BEGIN] 0x00010002 w\n\
    [ PASS] 1 line 9 bin_sem_take OS_SUCCESS\n\
    [  END] 0x00010002 w DONE PASS 1 FAIL 0\n\
    [BEGIN] 0x00010002 v\n\
    [ FAIL] 1 line 9 bin_sem_take OS_SEM_TIMEOUT expected OS_SUCCESS\n\
    [  END] 0x00010002 v CUT PASS 0 FAIL 1\n\
    [TOTAL] TASKS 3 PASS 2 FAIL 1\n";

const ISSUED_TWICE: &str =
    "osal-app 1\ntask main\n# a comment\n# and another\ntask_create $t \"w\" w 0 1 -> OS_SUCCESS 0x00010002\nend\n# a third\ntask w\nbin_sem_take $s check -> OS_SUCCESS\nend\n";

/// The first task of the identifier.
const ISSUED: [Row; 4] = [
    (0, Start(b"main", 0), SUCCESS, 0x0001_0001, b""),
    (MAIN, Start(b"w", 1), SUCCESS, 0x0001_0002, b""),
    (OTHER, Take, SUCCESS, 0, b""),
    (OTHER, Exit, SUCCESS, 0, b""),
];

/// What follows it.
const ISSUED_AGAIN: [Row; 4] = [
    (0, Start(b"x", 1), Answer::Code(-14), 0, b""),
    (0, Start(b"y", 2), SUCCESS, 0x0001_0003, b""),
    (0, Start(b"v", 1), SUCCESS, 0x0001_0002, b""),
    (OTHER, Take, TIMED_OUT, 0, b""),
];

#[test]
fn an_identifier_issued_twice_has_two_segments(rt: HostRuntime) {
    let app = app_of(&rt, rt.alloc(), ISSUED_TWICE.as_bytes());
    let rows = [ISSUED.as_slice(), &ISSUED_AGAIN];
    assert!(rt; reports(rt.alloc(), &app, &rows, TWICE, (false, true)));
}
