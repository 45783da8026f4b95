//! What a table answers, call by call, on small tables.
use osal_base::{Name, ObjType, OsalId};
use osal_idtable::{IdFault, ReserveFault, Table};
use std::process::Abort;
use std::test::Fail;

#[derive(Clone, Copy)]
enum Call {
    Reserve(u8),
    Create(u8, u32),
    Peek(u8),
    Find(u8),
    IsReserved(u32),
    End(u32, Option<u32>),
    Lookup(u32),
    Write(u32, u32),
    WriteAlone(u32, u32),
    Hold(u32),
    Release(u32),
    Remove(u32),
    Claim(u32),
    Next(u32),
    Last,
}

use Call::{
    Claim, Create, End, Find, Hold, IsReserved, Last, Lookup, Next, Peek, Release, Remove, Reserve,
    Write, WriteAlone,
};

#[derive(Clone, Copy, PartialEq, Eq)]
enum Answer {
    Gives(u32),
    Nothing,
    NameTaken,
    NoFreeIds,
    Refused(IdFault),
}

use Answer::{Gives, NameTaken, NoFreeIds, Nothing, Refused};

fn of_reserve(found: Result<u32, ReserveFault>) -> Answer {
    match found {
        Ok(number) => Gives(number),
        Err(ReserveFault::NameTaken) => NameTaken,
        Err(ReserveFault::NoFreeIds) => NoFreeIds,
    }
}

fn of_id(found: Result<u32, IdFault>) -> Answer {
    match found {
        Ok(number) => Gives(number),
        Err(fault) => Refused(fault),
    }
}

fn of_option(id: Option<OsalId>) -> Answer {
    match id {
        Some(id) => Gives(id.raw()),
        None => Nothing,
    }
}

// A name of one byte, which is not 0.
fn name_of(letter: u8) -> Option<Name> {
    Name::new(&[letter]).ok()
}

// A reserved identifier is parked, so that the rows may end it.
fn reserve(table: &mut Table<u32>, name: Option<Name>) -> Answer {
    match table.reserve(name) {
        Ok(token) => {
            let id = token.id();
            table.park(token);
            Gives(id.raw())
        }
        Err(fault) => of_reserve(Err(fault)),
    }
}

fn create(table: &mut Table<u32>, name: Option<Name>, value: u32) -> Answer {
    match table.reserve(name) {
        Ok(token) => Gives(table.finalize(token, Some(value)).raw()),
        Err(fault) => of_reserve(Err(fault)),
    }
}

fn claim(table: &mut Table<u32>, id: OsalId) -> Answer {
    match table.claim(id) {
        Ok((token, object)) => {
            table.park(token);
            Gives(object)
        }
        Err(fault) => Refused(fault),
    }
}

fn peek(table: &Table<u32>, name: Option<Name>) -> Answer {
    match table.peek(name.as_ref()) {
        Ok(id) => Gives(id.raw()),
        Err(fault) => of_reserve(Err(fault)),
    }
}

fn find(table: &Table<u32>, name: Option<Name>) -> Answer {
    match name {
        Some(name) => of_option(table.find(&name)),
        None => Nothing,
    }
}

fn lookup(table: &Table<u32>, id: OsalId) -> Answer {
    match table.lookup(id) {
        Ok(object) => Gives(*object),
        Err(fault) => Refused(fault),
    }
}

fn holds(table: &Table<u32>, id: OsalId) -> Answer {
    of_id(table.holds(id))
}

fn look(table: &Table<u32>, call: Call) -> Answer {
    match call {
        Peek(letter) => peek(table, name_of(letter)),
        Find(letter) => find(table, name_of(letter)),
        IsReserved(id) => Gives(table.is_reserved(OsalId::of_raw(id)) as u32),
        Lookup(id) => lookup(table, OsalId::of_raw(id)),
        Next(id) => of_option(table.next_from(OsalId::of_raw(id))),
        _ => Gives(u32::from(table.last_serial())),
    }
}

fn end(table: &mut Table<u32>, id: OsalId, value: Option<u32>) -> Answer {
    match table.finalize_id(id, value) {
        Ok(id) => Gives(id.raw()),
        Err(fault) => Refused(fault),
    }
}

fn write(table: &mut Table<u32>, id: OsalId, value: u32) -> Answer {
    match table.get_mut(id) {
        Ok(object) => {
            *object = value;
            Gives(0)
        }
        Err(fault) => Refused(fault),
    }
}

fn write_alone(table: &mut Table<u32>, id: OsalId, value: u32) -> Answer {
    match table.exclusive(id) {
        Ok(object) => {
            *object = value;
            Gives(0)
        }
        Err(fault) => Refused(fault),
    }
}

fn hold(table: &mut Table<u32>, id: OsalId) -> Answer {
    match table.hold(id) {
        Ok(_) => holds(table, id),
        Err(fault) => Refused(fault),
    }
}

fn release(table: &mut Table<u32>, id: OsalId) -> Answer {
    match table.release(id) {
        Ok(_) => holds(table, id),
        Err(fault) => Refused(fault),
    }
}

fn change(table: &mut Table<u32>, call: Call) -> Answer {
    match call {
        Reserve(letter) => reserve(table, name_of(letter)),
        Create(letter, value) => create(table, name_of(letter), value),
        End(id, value) => end(table, OsalId::of_raw(id), value),
        Write(id, value) => write(table, OsalId::of_raw(id), value),
        WriteAlone(id, value) => write_alone(table, OsalId::of_raw(id), value),
        Hold(id) => hold(table, OsalId::of_raw(id)),
        Release(id) => release(table, OsalId::of_raw(id)),
        Remove(id) => of_id(table.remove(OsalId::of_raw(id))),
        Claim(id) => claim(table, OsalId::of_raw(id)),
        other => look(table, other),
    }
}

type Row = (Call, Answer);

// Whether the table answers a row so.
fn answers(table: &mut Table<u32>, row: &Row) -> bool {
    let (call, want) = *row;
    change(table, call) == want
}

// Follows the rows in a table, and tells how many objects it has then.
fn follow<H: Abort + AllocGlobal>(
    rt: &H,
    kind: ObjType,
    capacity: u32,
    rows: &[Row],
) -> Result<u32, Fail> {
    assert!(rt; 1 <= capacity && capacity <= 1024);
    let mut table = Table::new(rt.alloc(), kind, capacity)?;
    for (at, row) in rows.iter().enumerate() {
        assert!(rt; answers(&mut table, row), "row {at}");
    }
    Ok(table.len())
}

/// Slots that come free, and the serials that go on.
const SERIALS: [Row; 12] = [
    (Reserve(b'a'), Gives(0x0004_0001)),
    (Reserve(b'a'), NameTaken),
    (Reserve(b'b'), Gives(0x0004_0002)),
    (Reserve(b'c'), NoFreeIds),
    (End(0x0004_0001, None), Gives(0x0004_0001)),
    (Find(b'b'), Nothing),
    (Reserve(b'c'), Gives(0x0004_0003)),
    (End(0x0004_0002, Some(7)), Gives(0x0004_0002)),
    (Claim(0x0004_0002), Gives(7)),
    (Lookup(0x0004_0002), Refused(IdFault::InvalidId)),
    (End(0x0004_0002, Some(8)), Gives(0x0004_0002)),
    (Lookup(0x0004_0002), Gives(8)),
];

#[test]
fn serials_go_on_while_slots_come_free(rt: HostRuntime) -> Result<(), Fail> {
    let _ = follow(&rt, ObjType::BinSem, 2, &SERIALS)?;
    Ok(())
}

/// A slot that comes free is first in the walk again.
const WALK: [Row; 8] = [
    (Create(b'a', 1), Gives(0x0004_0001)),
    (Create(b'b', 2), Gives(0x0004_0002)),
    (Create(b'c', 3), Gives(0x0004_0003)),
    (Next(0), Gives(0x0004_0001)),
    (Remove(0x0004_0001), Gives(1)),
    (Create(b'd', 4), Gives(0x0004_0004)),
    (Next(0), Gives(0x0004_0004)),
    (Next(0x0004_0004), Gives(0x0004_0002)),
];

#[test]
fn the_walk_goes_by_slots(rt: HostRuntime) -> Result<(), Fail> {
    let objects = follow(&rt, ObjType::BinSem, 4, &WALK)?;
    assert!(rt; objects == 3);
    Ok(())
}

// Whether a name is reserved and let go so often.
fn goes_round(table: &mut Table<u32>, times: u32) -> bool {
    for _ in 0..times {
        match table.reserve(name_of(b's')) {
            Ok(token) => {
                table.finalize(token, None);
            }
            Err(_) => return false,
        }
    }
    true
}

#[test]
fn the_course_begins_again_once(rt: HostRuntime) -> Result<(), Fail> {
    let mut table: Table<u32> = Table::new(rt.alloc(), ObjType::BinSem, 20)?;
    assert!(rt; goes_round(&mut table, 65_600));
    assert!(rt; table.last_serial() == 80);
    assert!(rt; table.wraps() == 1);
    Ok(())
}

/// An identifier that is reserved, and ended without an object.
const PARKED: [Row; 6] = [
    (Reserve(b'a'), Gives(0x0002_0001)),
    (Find(b'a'), Nothing),
    (Reserve(b'a'), NameTaken),
    (End(0x0002_0001, None), Gives(0x0002_0001)),
    (End(0x0002_0001, None), Refused(IdFault::InvalidId)),
    (Reserve(b'a'), Gives(0x0002_0002)),
];

#[test]
fn a_parked_identifier_keeps_its_name_until_it_is_ended(rt: HostRuntime) -> Result<(), Fail> {
    let _ = follow(&rt, ObjType::Queue, 2, &PARKED)?;
    Ok(())
}

/// Identifiers that a reserve would give.
const PEEKED: [Row; 7] = [
    (Peek(b'a'), Gives(0x0002_0001)),
    (Last, Gives(0)),
    (Reserve(b'a'), Gives(0x0002_0001)),
    (Peek(b'a'), NameTaken),
    (IsReserved(0x0002_0001), Gives(1)),
    (IsReserved(0x0002_0002), Gives(0)),
    (Peek(b'b'), Gives(0x0002_0002)),
];

#[test]
fn a_peek_tells_and_changes_nothing(rt: HostRuntime) -> Result<(), Fail> {
    let _ = follow(&rt, ObjType::Queue, 2, &PEEKED)?;
    Ok(())
}

/// An object that is held, and let go.
const HELD: [Row; 11] = [
    (Create(b's', 5), Gives(0x0004_0001)),
    (Hold(0x0004_0001), Gives(1)),
    (Remove(0x0004_0001), Refused(IdFault::ObjectInUse)),
    (WriteAlone(0x0004_0001, 6), Refused(IdFault::ObjectInUse)),
    (Write(0x0004_0001, 7), Gives(0)),
    (Release(0x0004_0001), Gives(0)),
    (Release(0x0004_0001), Refused(IdFault::NotHeld)),
    (WriteAlone(0x0004_0001, 8), Gives(0)),
    (Remove(0x0004_0001), Gives(8)),
    (Hold(0x0004_0001), Refused(IdFault::InvalidId)),
    (Find(b's'), Nothing),
];

#[test]
fn a_held_object_stays(rt: HostRuntime) -> Result<(), Fail> {
    let _ = follow(&rt, ObjType::BinSem, 2, &HELD)?;
    Ok(())
}
