//! What the time part answers, call by call. No call looks at the task or at the moment that it is given.
use crate::tests::fixture::Ask::{Active, Advance, Named, Now, Numbered, On, TimerAdd, TimerSet};
use crate::tests::fixture::Want::{Done, Fires, Gives, Refused, Tells};
use crate::tests::fixture::{A, Firing, LONG, Row, bytes_of_firings, follow_in};
use osal_base::Status::{
    ErrIncorrectObjState, ErrInvalidArgument, ErrInvalidId, ErrNameNotFound, ErrNameTaken,
    ErrNameTooLong, ErrNoFreeIds, ErrObjectInUse, Error, TimerErrInvalidArgs,
};
use osal_base::{Answer, Bytes, Limits, Moment, OsalId, OutOfMemory, Room, Status};
use osal_call::NameWord::{TimebaseCreate, TimebaseFind, TimerFind};
use osal_call::NumberWord::TimebaseTick;
use osal_call::ObjectWord::{
    Hold, Release, TimebaseDelete, TimebaseFreeRun, TimerDelete, TimerInfo,
};
use osal_time::{Setting, TimePart, Timer};
use std::alloc::Global;
use std::process::Abort;
use std::test::Fail;

const NOW: Moment = Moment::START;

const B: u32 = 0x0008_0001;

const C: u32 = 0x0008_0002;

const D: u32 = 0x0008_0003;

const T: u32 = 0x0009_0001;

const U: u32 = 0x0009_0002;

const V: u32 = 0x0009_0003;

const W: u32 = 0x0009_0004;

// Follows the tables in a machine for so many timebases and timers.
fn follow<H: Abort + AllocGlobal>(
    rt: &H,
    timebases: u32,
    timers: u32,
    tables: &[&[Row]],
) -> Result<(), Fail> {
    let limits = Limits {
        timebases,
        timers,
        ..Limits::version1()
    };
    follow_in(rt, &limits, tables)
}

/// Timebases, and what is found then.
const TIMEBASES: [Row; 6] = [
    (0, A, Named(TimebaseCreate, b"b"), Gives(B)),
    (0, A, Named(TimebaseCreate, b"b"), Refused(ErrNameTaken)),
    (0, A, Named(TimebaseCreate, b"c"), Gives(C)),
    (0, A, Named(TimebaseCreate, b"b"), Refused(ErrNameTaken)),
    (0, A, Named(TimebaseCreate, b"d"), Refused(ErrNoFreeIds)),
    (0, A, Named(TimebaseFind, b"c"), Gives(C)),
];

/// Ticks, and what the sums are.
const SUMS: [Row; 8] = [
    (
        0,
        A,
        Numbered(TimebaseTick, D, 0),
        Refused(TimerErrInvalidArgs),
    ),
    (0, A, Numbered(TimebaseTick, D, 1), Refused(ErrInvalidId)),
    (
        0,
        A,
        Numbered(TimebaseTick, B, 0),
        Refused(TimerErrInvalidArgs),
    ),
    (0, A, Numbered(TimebaseTick, B, 7), Done),
    (0, A, On(TimebaseFreeRun, B), Gives(7)),
    (0, A, On(TimebaseFreeRun, C), Gives(0)),
    (0, A, On(TimebaseFreeRun, D), Refused(ErrInvalidId)),
    (0, A, On(TimebaseDelete, D), Refused(ErrInvalidId)),
];

/// A timebase is held, and has a timer.
const USED: [Row; 8] = [
    (0, A, On(Hold, B), Done),
    (0, A, On(TimebaseDelete, B), Refused(ErrObjectInUse)),
    (0, A, On(Release, B), Done),
    (0, A, On(Release, B), Refused(ErrIncorrectObjState)),
    (0, A, TimerAdd(b"t", B, 1), Gives(T)),
    (0, A, On(TimebaseDelete, B), Refused(ErrObjectInUse)),
    (0, A, On(TimerDelete, T), Done),
    (0, A, Active(B), Gives(1)),
];

/// It is deleted, and its identifier is refused.
const STALE_TIMEBASE: [Row; 8] = [
    (0, A, On(TimebaseDelete, B), Done),
    (0, A, Active(B), Gives(0)),
    (0, A, On(TimebaseDelete, B), Refused(ErrInvalidId)),
    (0, A, On(Hold, B), Refused(ErrInvalidId)),
    (0, A, On(Release, B), Refused(ErrInvalidId)),
    (0, A, Named(TimebaseCreate, b"b"), Gives(D)),
    (0, A, On(TimebaseFreeRun, D), Gives(0)),
    (0, A, On(TimebaseFreeRun, B), Refused(ErrInvalidId)),
];

#[test]
fn a_timebase_stays_while_it_is_held_or_has_a_timer(rt: HostRuntime) -> Result<(), Fail> {
    follow(&rt, 2, 1, &[&TIMEBASES, &SUMS, &USED, &STALE_TIMEBASE])
}

/// Timers on a timebase.
const TIMERS: [Row; 10] = [
    (0, A, TimerAdd(b"", B, 1), Refused(ErrInvalidArgument)),
    (0, A, TimerAdd(LONG, B, 1), Refused(ErrNameTooLong)),
    (0, A, TimerAdd(b"t\0", B, 1), Refused(ErrInvalidArgument)),
    (0, A, TimerAdd(b"t", B, 1), Refused(ErrInvalidId)),
    (0, A, Named(TimebaseCreate, b"b"), Gives(B)),
    (0, A, TimerAdd(b"t", B, 1), Gives(T)),
    (0, A, TimerAdd(b"t", C, 1), Refused(ErrInvalidId)),
    (0, A, TimerAdd(b"t", T, 1), Refused(ErrInvalidId)),
    (0, A, TimerAdd(b"t", B, 1), Refused(ErrNameTaken)),
    (0, A, TimerAdd(b"u", B, 2), Gives(U)),
];

/// Names that are taken, and what is found then.
const NAMES: [Row; 9] = [
    (0, A, TimerAdd(b"t", B, 3), Refused(ErrNameTaken)),
    (0, A, TimerAdd(b"v", B, 3), Refused(ErrNoFreeIds)),
    (0, A, TimerAdd(b"v", C, 3), Refused(ErrInvalidId)),
    (0, A, Named(TimerFind, b""), Refused(ErrInvalidArgument)),
    (0, A, Named(TimerFind, LONG), Refused(ErrNameTooLong)),
    (0, A, Named(TimerFind, b"v"), Refused(ErrNameNotFound)),
    (0, A, Named(TimerFind, b"u"), Gives(U)),
    (0, A, On(TimerInfo, V), Refused(ErrInvalidId)),
    (0, A, On(TimerInfo, T), Tells(0, b"t")),
];

/// Settings, and what a timer tells of them.
const SETTINGS: [Row; 12] = [
    (0, A, TimerSet(V, 0, 0), Refused(TimerErrInvalidArgs)),
    (0, A, TimerSet(V, 1, 0), Refused(ErrInvalidId)),
    (0, A, TimerSet(T, 0, 0), Refused(TimerErrInvalidArgs)),
    (0, A, On(TimerInfo, T), Tells(0, b"t")),
    (0, A, TimerSet(T, 100, 40), Done),
    (0, A, On(TimerInfo, T), Tells(429_496_729_640, b"t")),
    (0, A, TimerSet(T, 10, 0), Done),
    (0, A, On(TimerInfo, T), Tells(42_949_672_960, b"t")),
    (0, A, TimerSet(T, 0, 40), Done),
    (0, A, On(TimerInfo, T), Tells(40, b"t")),
    (0, A, TimerSet(T, 0, 0), Refused(TimerErrInvalidArgs)),
    (0, A, On(TimerInfo, T), Tells(40, b"t")),
];

/// A timer is held, let go, and deleted.
const HELD_TIMER: [Row; 7] = [
    (0, A, On(Hold, T), Done),
    (0, A, On(TimerDelete, T), Refused(ErrObjectInUse)),
    (0, A, On(Release, T), Done),
    (0, A, On(Release, T), Refused(ErrIncorrectObjState)),
    (0, A, Active(T), Gives(1)),
    (0, A, On(TimerDelete, T), Done),
    (0, A, Active(T), Gives(0)),
];

/// Its identifier is refused.
const STALE_TIMER: [Row; 7] = [
    (0, A, On(TimerDelete, T), Refused(ErrInvalidId)),
    (0, A, TimerSet(T, 1, 1), Refused(ErrInvalidId)),
    (0, A, On(TimerInfo, T), Refused(ErrInvalidId)),
    (0, A, On(Hold, T), Refused(ErrInvalidId)),
    (0, A, On(Release, T), Refused(ErrInvalidId)),
    (0, A, TimerAdd(b"t", B, 1), Gives(V)),
    (0, A, On(TimerInfo, V), Tells(0, b"t")),
];

#[test]
fn a_timer_tells_what_it_was_last_set_to(rt: HostRuntime) -> Result<(), Fail> {
    follow(
        &rt,
        1,
        2,
        &[&TIMERS, &NAMES, &SETTINGS, &HELD_TIMER, &STALE_TIMER],
    )
}

/// A timer that starts at 100 and expires each 40 microseconds.
const OFTEN: [Row; 10] = [
    (0, A, Named(TimebaseCreate, b"b"), Gives(B)),
    (0, A, TimerAdd(b"t", B, 7), Gives(T)),
    (0, A, TimerSet(T, 100, 40), Done),
    (0, A, Numbered(TimebaseTick, B, 200), Fires(&[(T, 2, 7)])),
    (0, A, Numbered(TimebaseTick, B, 19), Done),
    (0, A, Numbered(TimebaseTick, B, 1), Fires(&[(T, 0, 7)])),
    (0, A, Numbered(TimebaseTick, B, 30), Done),
    (0, A, TimerSet(T, 100, 40), Done),
    (
        0,
        A,
        Numbered(TimebaseTick, B, 200),
        Tells(1, b"\x00\x09\x00\x01\x00\x00\x00\x02\x00\x00\x00\x07"),
    ),
    (0, A, Numbered(TimebaseTick, B, 20), Fires(&[(T, 0, 7)])),
];

/// Timers without a start, and without an interval.
const ONCE: [Row; 8] = [
    (0, A, TimerSet(T, 0, 50), Done),
    (0, A, Numbered(TimebaseTick, B, 49), Done),
    (0, A, Numbered(TimebaseTick, B, 1), Fires(&[(T, 0, 7)])),
    (0, A, Numbered(TimebaseTick, B, 149), Fires(&[(T, 1, 7)])),
    (0, A, TimerSet(T, 10, 0), Done),
    (0, A, Numbered(TimebaseTick, B, 9), Done),
    (0, A, Numbered(TimebaseTick, B, 1), Fires(&[(T, 0, 7)])),
    (0, A, Numbered(TimebaseTick, B, 1000), Done),
];

/// Ticks behind the one expiry, and the longest tick.
const LONG_TICKS: [Row; 9] = [
    (0, A, TimerSet(T, 10, 0), Done),
    (0, A, Numbered(TimebaseTick, B, 1000), Fires(&[(T, 0, 7)])),
    (0, A, Numbered(TimebaseTick, B, 1000), Done),
    (0, A, TimerSet(T, 0, 1), Done),
    (
        0,
        A,
        Numbered(TimebaseTick, B, u32::MAX),
        Fires(&[(T, 4_294_967_294, 7)]),
    ),
    (0, A, On(TimebaseFreeRun, B), Gives(3678)),
    (0, A, On(TimerDelete, T), Done),
    (0, A, Numbered(TimebaseTick, B, u32::MAX), Done),
    (0, A, On(TimebaseFreeRun, B), Gives(3677)),
];

#[test]
fn a_timer_fires_once_a_tick_however_many_expiries_lie_there(rt: HostRuntime) -> Result<(), Fail> {
    follow(&rt, 1, 1, &[&OFTEN, &ONCE, &LONG_TICKS])
}

/// Two timers in the order of their attachment, then the second and one that was attached later.
const T_AND_U: &[Firing] = &[(T, 0, 1), (U, 0, 2)];

const U_AND_W: &[Firing] = &[(U, 1, 2), (W, 0, 4)];

/// Two timers, of which the later one was set first.
const TWO_FIRE: [Row; 7] = [
    (0, A, Named(TimebaseCreate, b"b"), Gives(B)),
    (0, A, Named(TimebaseCreate, b"c"), Gives(C)),
    (0, A, TimerAdd(b"t", B, 1), Gives(T)),
    (0, A, TimerAdd(b"u", B, 2), Gives(U)),
    (0, A, TimerSet(U, 0, 10), Done),
    (0, A, TimerSet(T, 0, 10), Done),
    (0, A, Numbered(TimebaseTick, B, 10), Fires(T_AND_U)),
];

/// A timer of another timebase, and one that came last.
const THREE_FIRE: [Row; 8] = [
    (0, A, On(TimerDelete, T), Done),
    (0, A, TimerAdd(b"v", C, 3), Gives(V)),
    (0, A, TimerAdd(b"w", B, 4), Gives(W)),
    (0, A, TimerSet(V, 0, 10), Done),
    (0, A, TimerSet(W, 5, 0), Done),
    (0, A, Numbered(TimebaseTick, B, 20), Fires(U_AND_W)),
    (0, A, Numbered(TimebaseTick, C, 9), Done),
    (0, A, Numbered(TimebaseTick, C, 1), Fires(&[(V, 0, 3)])),
];

#[test]
fn timers_fire_in_the_order_of_their_attachment(rt: HostRuntime) -> Result<(), Fail> {
    follow(&rt, 2, 4, &[&TWO_FIRE, &THREE_FIRE])
}

/// Moments that come later, and others.
const LATER_MOMENTS: [Row; 6] = [
    (0, A, Now, Gives(0)),
    (0, A, Advance(0), Refused(Error)),
    (0, A, Advance(5), Done),
    (0, A, Now, Gives(5)),
    (0, A, Advance(4), Refused(Error)),
    (0, A, Advance(5), Refused(Error)),
];

/// A tick leaves the moment as it is.
const TICKS_APART: [Row; 7] = [
    (0, A, Named(TimebaseCreate, b"b"), Gives(B)),
    (0, A, Numbered(TimebaseTick, B, 1000), Done),
    (0, A, Now, Gives(5)),
    (0, A, Advance(u64::MAX), Done),
    (0, A, Now, Tells(u64::MAX, b"")),
    (0, A, Advance(u64::MAX), Refused(Error)),
    (0, A, On(TimebaseFreeRun, B), Gives(1000)),
];

#[test]
fn the_moment_goes_on_alone(rt: HostRuntime) -> Result<(), Fail> {
    follow(&rt, 1, 1, &[&LATER_MOMENTS, &TICKS_APART])
}

// What the part answers to a timer under this name, on this timebase.
fn add(
    alloc: Global,
    part: &mut TimePart,
    name: &[u8],
    timebase: u32,
    handler: u32,
) -> Result<Answer, OutOfMemory> {
    let mut room = Room::new();
    let (task, timebase) = (OsalId::of_raw(A), OsalId::of_raw(timebase));
    let name = Bytes::copy(alloc, name)?;
    let ack = part.timer_add(alloc, task, NOW, &name, timebase, handler, &mut room)?;
    Ok(ack.answer)
}

// Adds 64 timers with names of one byte to the timebase B, each of which expires every microsecond, and tells what
// fires when three microseconds go by.
fn fill(alloc: Global, part: &mut TimePart) -> Result<Vec<u8>, OutOfMemory> {
    let mut room = Room::new();
    let mut firings = Vec::new(alloc);
    for i in 0..64 {
        add(alloc, part, &[b'@' + i as u8], B, i)?;
        let timer = OsalId::of_raw(T + i);
        part.timer_set(alloc, OsalId::of_raw(A), NOW, timer, 1, 1, &mut room)?;
        firings.push((T + i, 2, i))?;
    }
    bytes_of_firings(alloc, firings.as_slice())
}

/// Timers on a timebase that has 64, and why they are refused.
const ONE_MORE: [(&[u8], u32, Status); 4] = [
    (b"", B, ErrInvalidArgument),
    (b"@", B, Error),
    (b"!", C, ErrInvalidId),
    (b"!", B, Error),
];

// Whether each of them is refused so.
fn refuses_one_more(alloc: Global, part: &mut TimePart) -> Result<bool, OutOfMemory> {
    for (name, timebase, status) in ONE_MORE {
        let answer = add(alloc, part, name, timebase, 7)?;
        if answer != Answer::Code(status.number()) {
            return Ok(false);
        }
    }
    Ok(true)
}

// Whether the timebase B is made.
fn makes_timebase(alloc: Global, part: &mut TimePart) -> Result<bool, OutOfMemory> {
    let mut room = Room::new();
    let name = Bytes::copy(alloc, b"b")?;
    let ack = part.timebase_create(alloc, OsalId::of_raw(A), NOW, &name, &mut room)?;
    Ok(ack.number == u64::from(B))
}

// Whether 64 timers fire with these bytes when three microseconds go by.
fn fires(alloc: Global, part: &mut TimePart, bytes: &[u8]) -> Result<bool, OutOfMemory> {
    let mut room = Room::new();
    let (task, timebase) = (OsalId::of_raw(A), OsalId::of_raw(B));
    let ack = part.timebase_tick(alloc, task, NOW, timebase, 3, &mut room)?;
    Ok(ack.number == 64 && room.as_slice().len() == 768 && room.as_slice() == bytes)
}

// Whether the timebase that is filled takes no timer more, and all of its timers fire.
fn is_full_and_fires(alloc: Global, part: &mut TimePart) -> Result<bool, OutOfMemory> {
    let bytes = fill(alloc, part)?;
    let full = refuses_one_more(alloc, part)?;
    Ok(full && fires(alloc, part, bytes.as_slice())?)
}

#[test]
fn sixty_four_timers_of_a_timebase_all_fire(rt: HostRuntime) -> Result<(), Fail> {
    let limits = Limits {
        timebases: 1,
        timers: 100,
        ..Limits::version1()
    };
    assert!(rt; limits.fits());
    let mut part = TimePart::open(rt.alloc(), &limits)?;
    let made = makes_timebase(rt.alloc(), &mut part)?;
    assert!(rt; made);
    let fired = is_full_and_fires(rt.alloc(), &mut part)?;
    assert!(rt; fired);
    Ok(())
}

// Whether a timer that was set at the sum of 2 expires at a sum.
fn expires_at(start: u32, interval: u32, sum: u64) -> bool {
    let first = 2 + u64::from(if start == 0 { interval } else { start });
    if interval == 0 || sum < first {
        sum == first
    } else {
        (sum - first) % u64::from(interval) == 0
    }
}

// How many expiries of such a timer a search finds above one sum and not above another.
fn found_between(start: u32, interval: u32, from: u64, to: u64) -> u64 {
    let mut found = 0u64;
    for sum in from..to {
        if expires_at(start, interval, sum + 1) {
            found = found.saturating_add(1);
        }
    }
    found
}

// A timer that was set at the sum of 2.
fn timer_of(start: u32, interval: u32) -> Timer {
    Timer {
        timebase: OsalId::of_raw(B),
        handler: 7,
        setting: Some(Setting {
            at: 2,
            start,
            interval,
        }),
    }
}

#[test]
fn the_expiries_between_two_sums_are_those_that_a_search_finds(rt: HostRuntime) {
    for (start, interval) in [(1, 0), (5, 0), (0, 1), (0, 3), (7, 2), (2, 7)] {
        let timer = timer_of(start, interval);
        for from in 0..20 {
            for to in from..40 {
                let found = found_between(start, interval, from, to);
                assert!(rt; timer.expiries_between(from, to) == found, "{from} {to}");
            }
        }
    }
}
