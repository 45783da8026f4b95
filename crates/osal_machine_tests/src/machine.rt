//! Which part each identifier and wait is of, and what the machine answers for each part.

use osal_base::Status::{
    ErrIncorrectObjState, ErrInvalidId, ErrInvalidSize, ErrObjectInUse, Error,
};
use osal_base::{Answer, Bytes, Limits, Moment, OsalId, OutOfMemory, Reply, Room, Status};
use osal_call::{Call, Entry, Journal, part_of};
use osal_machine::{AnyPart, Part, Whole};
use osal_task::TaskPart;
use osal_time::TimePart;
use std::alloc::Global;
use std::process::Abort;
use std::test::Fail;

const A: u32 = 0x0001_0001;

const TIMEBASE: u32 = 0x0008_0001;

const TIMER: u32 = 0x0009_0001;

/// What is asked of a machine at its start.
#[derive(Clone, Copy, Debug, PartialEq, Eq)]
enum Question {
    Absent,
    Console,
    Time,
    Timer,
}

// Asks a machine at its start. It is owned here alone, as its drop is long, and lent to what asks.
fn on_a_machine<R: Abort + AllocGlobal>(rt: &R, question: Question) -> Result<(), Fail> {
    let mut whole = Whole::open(rt.alloc(), &Limits::version1())?;
    match question {
        Question::Absent => refuse_all(rt, &mut whole),
        Question::Console => ask_console(rt, &mut whole),
        Question::Time => go_on(rt, &mut whole),
        Question::Timer => tick(rt, &mut whole),
    }
    Ok(())
}

// Whether the whole machine answers so to a call of the task A at the start.
fn answers(alloc: Global, whole: &mut Whole, call: Call, want: Answer) -> bool {
    let mut room = Room::new();
    let task = OsalId::of_raw(A);
    match whole.apply(alloc, task, Moment::START, &call, &mut room) {
        Ok(ack) => ack.answer == want,
        Err(_) => false,
    }
}

fn refused(status: Status) -> Answer {
    Answer::Code(status.number())
}

fn part_of_hold(raw: u32) -> u32 {
    part_of(&Call::Hold {
        id: OsalId::of_raw(raw),
    })
}

fn part_of_end(part: u32) -> u32 {
    part_of(&Call::WaitEnd { part })
}

#[test]
fn an_identifier_is_of_the_part_of_its_type(rt: HostRuntime) {
    let rows = [
        (0x0002_0001, 1),
        (0x0003_0001, 2),
        (0x0004_0001, 3),
        (0x0005_0001, 4),
        (0x0006_0001, 7),
        (0x0007_0001, 7),
        (0x0008_0001, 6),
        (0x0009_0001, 6),
        (0x000b_0001, 7),
        (0x000c_0001, 8),
        (0x000d_0001, 5),
    ];
    for (raw, part) in rows {
        assert!(rt; part_of_hold(raw) == part, "{raw}");
    }
}

#[test]
fn an_identifier_of_a_task_or_of_no_part_is_of_the_first_part(rt: HostRuntime) {
    for raw in [0x0000_0001, 0x0001_0001, 0x000a_0001, 0x000e_0001] {
        assert!(rt; part_of_hold(raw) == 0, "{raw}");
    }
}

#[test]
fn a_wait_is_of_the_part_of_its_number(rt: HostRuntime) {
    for (wait, part) in [(0, 0), (3, 3), (8, 8), (9, 0), (u32::MAX, 0)] {
        assert!(rt; part_of_end(wait) == part, "wait {wait}");
    }
}

// Whether the machine without objects refuses the end of a wait in that part, for which A need not wait.
fn refuses_the_end(alloc: Global, whole: &mut Whole, part: u32) -> bool {
    let call = Call::WaitEnd { part };
    answers(alloc, whole, call, refused(ErrIncorrectObjState))
        && whole.ready(OsalId::of_raw(A), Moment::START, part)
}

// Whether the machine without objects refuses to hold that object.
fn refuses_the_hold(alloc: Global, whole: &mut Whole, raw: u32) -> bool {
    let id = OsalId::of_raw(raw);
    answers(alloc, whole, Call::Hold { id }, refused(ErrInvalidId)) && !whole.active(id)
}

// A machine without objects refuses each end of a wait and each hold.
fn refuse_all<R: Abort + AllocGlobal>(rt: &R, whole: &mut Whole) {
    for part in [1, 2, 3, 4, 5, 6, 7, 8, 9] {
        assert!(rt; refuses_the_end(rt.alloc(), whole, part), "part {part}");
    }
    for raw in [
        0x0002_0001,
        0x0008_0001,
        0x0009_0001,
        0x000d_0001,
        0x000e_0001,
    ] {
        assert!(rt; refuses_the_hold(rt.alloc(), whole, raw), "{raw}");
    }
}

const CONSOLE: u32 = 0x000c_0001;

// The console is active, is held and released, and gives 1 to 1,024 bytes.
fn ask_console<R: Abort + AllocGlobal>(rt: &R, whole: &mut Whole) {
    let id = OsalId::of_raw(CONSOLE);
    assert!(rt; whole.active(id));
    let held = answers(rt.alloc(), whole, Call::Hold { id }, Answer::Code(0));
    let released = answers(rt.alloc(), whole, Call::Release { id }, Answer::Code(0));
    assert!(rt; held && released);
    for n in [0, 1025] {
        let want = refused(ErrInvalidSize);
        assert!(rt; answers(rt.alloc(), whole, Call::Drain { n }, want), "{n}");
    }
    let none = answers(rt.alloc(), whole, Call::Drain { n: 1024 }, Answer::Code(0));
    assert!(rt; none);
}

#[test]
fn the_console_is_there_from_the_start(rt: HostRuntime) -> Result<(), Fail> {
    on_a_machine(&rt, Question::Console)
}

#[test]
fn what_is_not_there_has_no_objects_and_no_waits(rt: HostRuntime) -> Result<(), Fail> {
    on_a_machine(&rt, Question::Absent)
}

// Time goes on to later moments, and to no other.
fn go_on<R: Abort + AllocGlobal>(rt: &R, whole: &mut Whole) {
    for (to, answer) in [
        (0, refused(Error)),
        (5, Answer::Code(0)),
        (5, refused(Error)),
        (4, refused(Error)),
        (u64::MAX, Answer::Code(0)),
        (u64::MAX, refused(Error)),
    ] {
        assert!(rt;
            answers(rt.alloc(), whole, Call::Advance { to }, answer),
            "to {to}"
        );
    }
    assert!(rt; whole.moment().ms == u64::MAX);
}

#[test]
fn time_goes_on_to_a_later_moment_alone(rt: HostRuntime) -> Result<(), Fail> {
    on_a_machine(&rt, Question::Time)
}

fn name_of(alloc: Global, bytes: &[u8]) -> Bytes {
    match Bytes::copy(alloc, bytes) {
        Ok(name) => name,
        Err(_) => Bytes::new(alloc),
    }
}

// Whether a timebase is made.
fn makes_timebase(alloc: Global, whole: &mut Whole) -> bool {
    let name = name_of(alloc, b"base");
    answers(alloc, whole, Call::TimebaseCreate { name }, Answer::Code(0))
}

// Whether a timer is made on it.
fn makes_timer(alloc: Global, whole: &mut Whole) -> bool {
    let call = Call::TimerAdd {
        name: name_of(alloc, b"timer"),
        timebase: OsalId::of_raw(TIMEBASE),
        handler: 7,
    };
    answers(alloc, whole, call, Answer::Code(0))
}

// Whether the timer is set to expire after 1,000 microseconds and then after each 400.
fn sets_timer(alloc: Global, whole: &mut Whole) -> bool {
    let call = Call::TimerSet {
        id: OsalId::of_raw(TIMER),
        start: 1000,
        interval: 400,
    };
    answers(alloc, whole, call, Answer::Code(0))
}

// Whether the timebase ticks.
fn ticks(alloc: Global, whole: &mut Whole) -> bool {
    let call = Call::TimebaseTick {
        id: OsalId::of_raw(TIMEBASE),
        usecs: 2000,
    };
    answers(alloc, whole, call, Answer::Code(0))
}

// Whether a timebase with a timer stays, and the timer is deleted.
fn deletes_timer(alloc: Global, whole: &mut Whole) -> bool {
    let base = OsalId::of_raw(TIMEBASE);
    let id = OsalId::of_raw(TIMER);
    let kept = answers(
        alloc,
        whole,
        Call::TimebaseDelete { id: base },
        refused(ErrObjectInUse),
    );
    kept && answers(alloc, whole, Call::TimerDelete { id }, Answer::Code(0))
}

// Whether the identifier of the timer is refused.
fn refuses_timer(alloc: Global, whole: &mut Whole) -> bool {
    let id = OsalId::of_raw(TIMER);
    let unknown = answers(alloc, whole, Call::TimerInfo { id }, refused(ErrInvalidId));
    unknown && answers(alloc, whole, Call::Hold { id }, refused(ErrInvalidId))
}

// A tick lets the timer fire, and a timer that was deleted is refused.
fn tick<R: Abort + AllocGlobal>(rt: &R, whole: &mut Whole) {
    assert!(rt; makes_timebase(rt.alloc(), whole));
    assert!(rt; makes_timer(rt.alloc(), whole));
    assert!(rt; sets_timer(rt.alloc(), whole));
    assert!(rt; whole.active(OsalId::of_raw(TIMER)));
    assert!(rt; ticks(rt.alloc(), whole));
    assert!(rt; deletes_timer(rt.alloc(), whole));
    assert!(rt; refuses_timer(rt.alloc(), whole));
    assert!(rt; !whole.active(OsalId::of_raw(TIMER)));
}

#[test]
fn a_timer_fires_and_is_deleted(rt: HostRuntime) -> Result<(), Fail> {
    on_a_machine(&rt, Question::Timer)
}

// Whether a part of any kind has not the task A, which does not go on there.
fn is_without_task<P: Part>(part: &P) -> bool {
    !part.active(OsalId::of_raw(A)) && !part.goes(OsalId::of_raw(A))
}

// Whether a part that is given up has not the task A.
fn starts_without_task(part: AnyPart) -> bool {
    is_without_task(&part)
}

#[test]
fn a_part_of_time_alone_is_seen_as_the_machine_is(rt: HostRuntime) -> Result<(), Fail> {
    let time = TimePart::open(rt.alloc(), &Limits::version1())?;
    assert!(rt; starts_without_task(AnyPart::Time(time)));
    Ok(())
}

#[test]
fn a_part_of_tasks_alone_is_seen_as_the_machine_is(rt: HostRuntime) -> Result<(), Fail> {
    let tasks = TaskPart::open(rt.alloc(), &Limits::version1())?;
    assert!(rt; starts_without_task(AnyPart::Task(tasks)));
    Ok(())
}

fn entry(alloc: Global, caller: u32, call: Call) -> Entry {
    let reply = Reply {
        answer: Answer::Go,
        number: 0,
        bytes: Bytes::new(alloc),
    };
    Entry {
        caller,
        task: OsalId::of_raw(A),
        now: Moment::START,
        call,
        reply,
    }
}

// Writes three entries.
fn write(alloc: Global, journal: &mut Journal) -> Result<(), OutOfMemory> {
    journal.reserve(2)?;
    journal.push(entry(alloc, 2, Call::Checkpoint));
    journal.push(entry(alloc, 3, Call::TaskExit));
    journal.reserve(1)?;
    journal.push(entry(alloc, 4, Call::Advance { to: 5 }));
    Ok(())
}

fn caller_at(journal: &Journal, at: u64) -> Option<u32> {
    match journal.entry(at) {
        Some(entry) => Some(entry.caller),
        None => None,
    }
}

fn write_and_look<R: Abort + AllocGlobal>(rt: &R, journal: &mut Journal) -> Result<(), Fail> {
    assert!(rt; journal.len() == 0);
    write(rt.alloc(), journal)?;
    assert!(rt; journal.len() == 3);
    assert!(rt; journal.entries().len() == 3);
    for (at, caller) in [
        (0, Some(2)),
        (1, Some(3)),
        (2, Some(4)),
        (3, None),
        (u64::MAX, None),
    ] {
        assert!(rt; caller_at(journal, at) == caller, "at {at}");
    }
    journal.clear();
    assert!(rt; journal.len() == 0);
    assert!(rt; journal.entry(0).is_none());
    Ok(())
}

#[test]
fn a_journal_keeps_its_entries_in_order(rt: HostRuntime) -> Result<(), Fail> {
    let mut journal = Journal::new(rt.alloc());
    write_and_look(&rt, &mut journal)
}
