//! What objects and the waits that stand on them answer, call by call.
use osal_base::{Ack, Moment, Name, ObjType, OsalId, Status, Timeout};
use osal_idtable::{status_of_name, status_of_reserve};
use osal_object::{Objects, Standing, WaitRecord};
use std::process::Abort;
use std::test::Fail;

#[derive(Clone, Copy)]
enum Call {
    Create(u8),
    Peek(u8),
    Write(u32, u32),
    Look(u32),
    Delete(u32),
    Hold(u32),
    Release(u32),
    Begin(u32, Option<u32>),
    End(u32),
    Abandon(u32),
}

use Call::{Abandon, Begin, Create, Delete, End, Hold, Look, Peek, Release, Write};

#[derive(Clone, Copy)]
enum Want {
    Done,
    Gives(u64),
    Refused(Status),
    Waits,
}

use Want::{Done, Gives, Refused, Waits};

type Row = (Call, Want);

const SEM: u32 = 0x0004_0001;

const FIRST: u32 = 0x0001_0001;

const SECOND: u32 = 0x0001_0002;

const THIRD: u32 = 0x0001_0003;

fn ack_of(want: Want) -> Ack {
    match want {
        Done => Ack::success(),
        Gives(number) => Ack::gives(number),
        Refused(status) => Ack::refused(status),
        Waits => Ack::waits(),
    }
}

fn wait_on(task: u32, on: Option<u32>) -> WaitRecord<u8> {
    let on = match on {
        Some(id) => Standing::new(Some(OsalId::of_raw(id))),
        None => Standing::new(None),
    };
    WaitRecord::new(
        OsalId::of_raw(task),
        b'w',
        on,
        Timeout::Ms(10),
        Moment::START,
    )
}

fn create(objects: &mut Objects<u32, u8>, letter: u8) -> Ack {
    match Name::new(&[letter]) {
        Ok(name) => objects.create(name, 7),
        Err(fault) => Ack::refused(status_of_name(fault)),
    }
}

fn peek(objects: &Objects<u32, u8>, letter: u8) -> Ack {
    match Name::new(&[letter]) {
        Ok(name) => match objects.peek(&name) {
            Ok(id) => Ack::gives(u64::from(id.raw())),
            Err(fault) => Ack::refused(status_of_reserve(fault)),
        },
        Err(fault) => Ack::refused(status_of_name(fault)),
    }
}

fn write(objects: &mut Objects<u32, u8>, id: OsalId, value: u32) -> Ack {
    if objects.is_active(id) {
        *objects.object_mut(id) = value;
        Ack::success()
    } else {
        Ack::refused(Status::ErrInvalidId)
    }
}

fn look(objects: &Objects<u32, u8>, id: OsalId) -> Ack {
    match objects.lookup(id) {
        Ok(value) => Ack::gives(u64::from(*value)),
        Err(_) => Ack::refused(Status::ErrInvalidId),
    }
}

fn end(objects: &mut Objects<u32, u8>, task: OsalId) -> Ack {
    objects.end(task);
    Ack::success()
}

fn answer(objects: &mut Objects<u32, u8>, call: Call) -> Ack {
    match call {
        Create(letter) => create(objects, letter),
        Peek(letter) => peek(objects, letter),
        Write(id, value) => write(objects, OsalId::of_raw(id), value),
        Look(id) => look(objects, OsalId::of_raw(id)),
        Delete(id) => objects.delete(OsalId::of_raw(id)),
        Hold(id) => objects.hold(OsalId::of_raw(id)),
        Release(id) => objects.release(OsalId::of_raw(id)),
        Begin(task, on) => objects.begin(wait_on(task, on)),
        End(task) => end(objects, OsalId::of_raw(task)),
        Abandon(task) => objects.abandon(OsalId::of_raw(task)),
    }
}

// Whether the objects answer a row so.
fn answers(objects: &mut Objects<u32, u8>, row: &Row) -> bool {
    let (call, want) = *row;
    answer(objects, call) == ack_of(want)
}

// Follows the rows of each table in turn.
fn follow_on(rt: &impl Abort, objects: &mut Objects<u32, u8>, tables: &[&[Row]]) {
    for (table, rows) in tables.iter().enumerate() {
        for (at, row) in rows.iter().enumerate() {
            assert!(rt; answers(objects, row), "table {table}, row {at}");
        }
    }
}

// Follows the tables with room for two objects and two waits.
fn follow<H: Abort + AllocGlobal>(rt: &H, tables: &[&[Row]]) -> Result<(), Fail> {
    let mut objects = Objects::new(rt.alloc(), ObjType::BinSem, 2, 2)?;
    follow_on(rt, &mut objects, tables);
    Ok(())
}

/// Two tasks wait for a semaphore that is held, and there is no room for a third.
const TWO_WAIT: [Row; 7] = [
    (Create(b's'), Gives(0x0004_0001)),
    (Hold(SEM), Done),
    (Begin(FIRST, Some(SEM)), Waits),
    (
        Begin(FIRST, Some(SEM)),
        Refused(Status::ErrIncorrectObjState),
    ),
    (Begin(SECOND, Some(SEM)), Waits),
    (Begin(THIRD, Some(SEM)), Refused(Status::Error)),
    (
        Begin(SECOND, Some(SEM)),
        Refused(Status::ErrIncorrectObjState),
    ),
];

/// The semaphore is let go, and deleted.
const LET_GO: [Row; 11] = [
    (Release(SEM), Done),
    (Release(SEM), Refused(Status::ErrIncorrectObjState)),
    (Delete(SEM), Refused(Status::ErrObjectInUse)),
    (End(FIRST), Done),
    (Delete(SEM), Refused(Status::ErrObjectInUse)),
    (Abandon(FIRST), Refused(Status::ErrIncorrectObjState)),
    (Abandon(SECOND), Done),
    (Abandon(SECOND), Refused(Status::ErrIncorrectObjState)),
    (Delete(SEM), Done),
    (Hold(SEM), Refused(Status::ErrInvalidId)),
    (Release(SEM), Refused(Status::ErrInvalidId)),
];

#[test]
fn an_object_stays_while_a_wait_on_it_is_open(rt: HostRuntime) -> Result<(), Fail> {
    follow(&rt, &[&TWO_WAIT, &LET_GO])
}

/// A task that waits for nothing.
const NOTHING: [Row; 6] = [
    (Create(b's'), Gives(0x0004_0001)),
    (Begin(FIRST, None), Waits),
    (Delete(SEM), Done),
    (Begin(FIRST, None), Refused(Status::ErrIncorrectObjState)),
    (Abandon(FIRST), Done),
    (Begin(FIRST, None), Waits),
];

#[test]
fn a_wait_on_nothing_holds_nothing(rt: HostRuntime) -> Result<(), Fail> {
    follow(&rt, &[&NOTHING])
}

/// Two objects are asked for and made, and the first is written.
const ASKED_FOR: [Row; 8] = [
    (Peek(b's'), Gives(0x0004_0001)),
    (Create(b's'), Gives(0x0004_0001)),
    (Peek(b's'), Refused(Status::ErrNameTaken)),
    (Peek(b'o'), Gives(0x0004_0002)),
    (Create(b't'), Gives(0x0004_0002)),
    (Peek(b'o'), Refused(Status::ErrNoFreeIds)),
    (Write(SEM, 8), Done),
    (Look(SEM), Gives(8)),
];

#[test]
fn an_object_is_asked_for_before_it_is_made_and_written_in_its_place(
    rt: HostRuntime,
) -> Result<(), Fail> {
    follow(&rt, &[&ASKED_FOR])
}

// Whether callers hold the semaphore so often.
fn holds(objects: &mut Objects<u32, u8>, times: u32) -> bool {
    for _ in 0..times {
        if !answers(objects, &(Hold(SEM), Done)) {
            return false;
        }
    }
    true
}

/// A semaphore that callers hold a million times.
const MILLION: [Row; 6] = [
    (Hold(SEM), Refused(Status::Error)),
    (Begin(FIRST, Some(SEM)), Waits),
    (Release(SEM), Done),
    (Hold(SEM), Refused(Status::Error)),
    (End(FIRST), Done),
    (Hold(SEM), Done),
];

#[test]
fn callers_hold_an_object_a_million_times_at_most(rt: HostRuntime) -> Result<(), Fail> {
    let mut objects = Objects::new(rt.alloc(), ObjType::BinSem, 2, 2)?;
    follow_on(&rt, &mut objects, &[&[(Create(b's'), Gives(0x0004_0001))]]);
    assert!(rt; holds(&mut objects, 1_000_000));
    follow_on(&rt, &mut objects, &[&MILLION]);
    Ok(())
}

// Whether a wait that begins at a moment is due at that one, or never.
fn is_due_at(now: u64, timeout: Timeout, due: Option<u64>) -> bool {
    let on = Standing::new(None);
    let wait = WaitRecord::new(OsalId::of_raw(FIRST), b'w', on, timeout, Moment { ms: now });
    let at = match wait.deadline {
        Some(moment) => Some(moment.ms),
        None => None,
    };
    at == due && wait.is_due(Moment { ms: u64::MAX }) == due.is_some()
}

/// A moment, a timeout, and when a wait that begins then is due.
const DEADLINES: [(u64, Timeout, Option<u64>); 7] = [
    (0, Timeout::Ms(10), Some(10)),
    (5, Timeout::Ms(0), Some(5)),
    (5, Timeout::Check, Some(5)),
    (5, Timeout::Pend, None),
    (u64::MAX - 10, Timeout::Ms(10), Some(u64::MAX)),
    (u64::MAX - 9, Timeout::Ms(10), Some(u64::MAX)),
    (u64::MAX, Timeout::Ms(2_147_483_647), Some(u64::MAX)),
];

#[test]
fn a_deadline_stops_at_the_last_moment(rt: HostRuntime) {
    for (now, timeout, due) in DEADLINES {
        assert!(rt; is_due_at(now, timeout, due), "at {now}");
    }
}
