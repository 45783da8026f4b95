//! What the part of binary semaphores answers, call by call, at the moment and to the task of each row.
use crate::tests::fixture::Ask::{Abandon, Active, End, Named, Often, On, Ready, Timed, Valued};
use crate::tests::fixture::Want::{Done, Gives, Refused, Tells, Waits};
use crate::tests::fixture::{A, B, BIN_SEMS, C, LONG, NINETEEN, Row, follow};
use osal_base::Status::{
    ErrIncorrectObjState, ErrInvalidArgument, ErrInvalidId, ErrNameNotFound, ErrNameTaken,
    ErrNameTooLong, ErrNoFreeIds, ErrObjectInUse, Error, SemTimeout,
};
use osal_base::Timeout::{Check, Ms, Pend};
use osal_call::NameWord::BinSemFind;
use osal_call::ObjectWord::{BinSemDelete, BinSemFlush, BinSemGive, BinSemInfo, Hold, Release};
use osal_call::ValueWord::BinSemCreate;
use osal_call::WaitWord::BinSemTake;
use std::test::Fail;

const S: u32 = 0x0004_0001;

const T: u32 = 0x0004_0002;

const U: u32 = 0x0004_0003;

/// Creates, and what is found then.
const CREATES: [Row; 11] = [
    (0, A, Valued(BinSemCreate, b"s", 0), Gives(S)),
    (0, A, On(BinSemInfo, S), Tells(0, b"s")),
    (0, A, Valued(BinSemCreate, NINETEEN, 1), Gives(T)),
    (0, A, On(BinSemInfo, T), Tells(1, NINETEEN)),
    (0, A, Valued(BinSemCreate, b"s", 1), Refused(ErrNameTaken)),
    (0, A, Valued(BinSemCreate, b"u", 1), Refused(ErrNoFreeIds)),
    (0, A, On(BinSemDelete, S), Done),
    (0, A, Valued(BinSemCreate, b"u", 0xFFFF_FFFF), Gives(U)),
    (0, A, On(BinSemInfo, U), Tells(1, b"u")),
    (0, A, Named(BinSemFind, b"s"), Refused(ErrNameNotFound)),
    (0, A, Named(BinSemFind, b"u"), Gives(U)),
];

#[test]
fn a_semaphore_is_created_full_or_empty(rt: HostRuntime) -> Result<(), Fail> {
    follow(&rt, 1, 2, &[&CREATES])
}

/// Takes that are answered at once.
const AT_ONCE: [Row; 8] = [
    (0, A, Valued(BinSemCreate, b"s", 1), Gives(S)),
    (0, A, Valued(BinSemCreate, b"t", 0), Gives(T)),
    (0, A, Timed(BinSemTake, U, Pend), Refused(ErrInvalidId)),
    (0, A, Timed(BinSemTake, A, Check), Refused(ErrInvalidId)),
    (0, A, Timed(BinSemTake, S, Check), Done),
    (0, A, On(BinSemInfo, S), Tells(0, b"s")),
    (0, A, Timed(BinSemTake, S, Check), Refused(SemTimeout)),
    (0, A, Timed(BinSemTake, S, Ms(0)), Refused(SemTimeout)),
];

/// A task that waits does not wait again.
const ONE_WAITS: [Row; 8] = [
    (0, A, Timed(BinSemTake, S, Pend), Waits),
    (
        0,
        A,
        Timed(BinSemTake, S, Pend),
        Refused(ErrIncorrectObjState),
    ),
    (
        0,
        A,
        Timed(BinSemTake, T, Ms(5)),
        Refused(ErrIncorrectObjState),
    ),
    (0, A, Timed(BinSemTake, T, Check), Refused(SemTimeout)),
    (0, A, Timed(BinSemTake, U, Pend), Refused(ErrInvalidId)),
    (0, A, On(BinSemGive, U), Refused(ErrInvalidId)),
    (0, A, On(BinSemGive, T), Done),
    (0, A, Timed(BinSemTake, T, Pend), Done),
];

/// Two tasks wait, and there is room for no third.
const TWO_WAIT: [Row; 10] = [
    (0, B, Timed(BinSemTake, T, Ms(5)), Waits),
    (0, C, Timed(BinSemTake, T, Pend), Refused(Error)),
    (
        0,
        A,
        Timed(BinSemTake, T, Pend),
        Refused(ErrIncorrectObjState),
    ),
    (0, C, Timed(BinSemTake, T, Check), Refused(SemTimeout)),
    (0, C, On(BinSemGive, T), Done),
    (0, C, On(BinSemGive, T), Done),
    (0, C, Timed(BinSemTake, T, Pend), Done),
    (0, B, End(BIN_SEMS), Waits),
    (0, B, Abandon(BIN_SEMS), Done),
    (0, C, Timed(BinSemTake, T, Pend), Waits),
];

#[test]
fn a_take_is_answered_at_once_or_waits(rt: HostRuntime) -> Result<(), Fail> {
    follow(&rt, 2, 20, &[&AT_ONCE, &ONE_WAITS, &TWO_WAIT])
}

/// A take waits until it is due.
const DUE: [Row; 9] = [
    (100, A, Valued(BinSemCreate, b"s", 0), Gives(S)),
    (100, A, Ready(BIN_SEMS), Gives(1)),
    (100, A, End(BIN_SEMS), Refused(ErrIncorrectObjState)),
    (100, A, Timed(BinSemTake, S, Ms(50)), Waits),
    (149, A, Ready(BIN_SEMS), Gives(0)),
    (149, A, End(BIN_SEMS), Waits),
    (150, A, Ready(BIN_SEMS), Gives(1)),
    (150, A, End(BIN_SEMS), Refused(SemTimeout)),
    (150, A, End(BIN_SEMS), Refused(ErrIncorrectObjState)),
];

/// A take waits until the semaphore is full.
const SERVED: [Row; 5] = [
    (150, A, Timed(BinSemTake, S, Ms(50)), Waits),
    (199, B, On(BinSemGive, S), Done),
    (199, A, Ready(BIN_SEMS), Gives(1)),
    (200, A, End(BIN_SEMS), Done),
    (200, A, On(BinSemInfo, S), Tells(0, b"s")),
];

/// Two takes wait for the semaphore.
const TWO_WAIT_ON_IT: [Row; 10] = [
    (200, A, Timed(BinSemTake, S, Pend), Waits),
    (200, B, Timed(BinSemTake, S, Ms(10)), Waits),
    (200, C, On(BinSemGive, S), Done),
    (200, A, Ready(BIN_SEMS), Gives(1)),
    (200, B, End(BIN_SEMS), Done),
    (200, A, End(BIN_SEMS), Waits),
    (u64::MAX, A, End(BIN_SEMS), Waits),
    (u64::MAX, C, On(BinSemGive, S), Done),
    (u64::MAX, A, Abandon(BIN_SEMS), Done),
    (
        u64::MAX,
        A,
        Abandon(BIN_SEMS),
        Refused(ErrIncorrectObjState),
    ),
];

/// A take is due at the last moment.
const LATEST: [Row; 4] = [
    (u64::MAX, A, Timed(BinSemTake, S, Check), Done),
    (u64::MAX - 1, A, Timed(BinSemTake, S, Ms(5)), Waits),
    (u64::MAX - 1, A, End(BIN_SEMS), Waits),
    (u64::MAX, A, End(BIN_SEMS), Refused(SemTimeout)),
];

#[test]
fn a_take_that_waits_ends_where_it_is_ready_or_due(rt: HostRuntime) -> Result<(), Fail> {
    follow(&rt, 64, 20, &[&DUE, &SERVED, &TWO_WAIT_ON_IT, &LATEST])
}

/// Two tasks wait for one semaphore, and a third for another.
const THREE_WAIT: [Row; 8] = [
    (0, A, Valued(BinSemCreate, b"s", 0), Gives(S)),
    (0, A, Valued(BinSemCreate, b"t", 0), Gives(T)),
    (0, A, On(BinSemFlush, U), Refused(ErrInvalidId)),
    (0, A, On(BinSemFlush, S), Done),
    (0, A, Timed(BinSemTake, S, Pend), Waits),
    (0, A, End(BIN_SEMS), Waits),
    (0, B, Timed(BinSemTake, S, Ms(10)), Waits),
    (0, C, Timed(BinSemTake, T, Pend), Waits),
];

/// The first semaphore is flushed.
const FLUSHED: [Row; 7] = [
    (0, C, On(BinSemFlush, S), Done),
    (0, A, Ready(BIN_SEMS), Gives(1)),
    (0, A, End(BIN_SEMS), Done),
    (0, A, On(BinSemInfo, S), Tells(0, b"s")),
    (0, C, Ready(BIN_SEMS), Gives(0)),
    (0, C, End(BIN_SEMS), Waits),
    (0, A, On(BinSemGive, S), Done),
];

/// It is flushed when it is full, and when a wait is due.
const FLUSHED_FULL: [Row; 9] = [
    (10, B, End(BIN_SEMS), Done),
    (10, B, On(BinSemInfo, S), Tells(1, b"s")),
    (10, B, On(BinSemFlush, S), Done),
    (10, B, Timed(BinSemTake, S, Check), Done),
    (10, B, Timed(BinSemTake, S, Ms(10)), Waits),
    (10, C, On(BinSemFlush, S), Done),
    (20, B, End(BIN_SEMS), Done),
    (20, B, Timed(BinSemTake, S, Pend), Waits),
    (20, B, End(BIN_SEMS), Waits),
];

#[test]
fn a_flush_releases_each_wait_and_leaves_the_value(rt: HostRuntime) -> Result<(), Fail> {
    follow(&rt, 64, 20, &[&THREE_WAIT, &FLUSHED, &FLUSHED_FULL])
}

/// A semaphore is held, and two tasks wait for it.
const HELD: [Row; 12] = [
    (0, A, Valued(BinSemCreate, b"s", 0), Gives(S)),
    (0, A, On(BinSemDelete, T), Refused(ErrInvalidId)),
    (0, A, On(Hold, T), Refused(ErrInvalidId)),
    (0, A, On(Release, T), Refused(ErrInvalidId)),
    (0, A, On(Release, S), Refused(ErrIncorrectObjState)),
    (0, A, On(Hold, S), Done),
    (0, A, On(BinSemDelete, S), Refused(ErrObjectInUse)),
    (0, A, Timed(BinSemTake, S, Pend), Waits),
    (0, B, Timed(BinSemTake, S, Ms(5)), Waits),
    (0, C, On(Release, S), Done),
    (0, C, On(Release, S), Refused(ErrIncorrectObjState)),
    (0, C, On(BinSemDelete, S), Refused(ErrObjectInUse)),
];

/// It is let go.
const LET_GO: [Row; 8] = [
    (0, C, On(BinSemGive, S), Done),
    (0, A, End(BIN_SEMS), Done),
    (5, B, End(BIN_SEMS), Refused(SemTimeout)),
    (5, C, On(Release, S), Refused(ErrIncorrectObjState)),
    (5, A, Timed(BinSemTake, S, Pend), Waits),
    (5, C, On(BinSemDelete, S), Refused(ErrObjectInUse)),
    (5, A, Abandon(BIN_SEMS), Done),
    (5, C, Active(S), Gives(1)),
];

/// It is deleted, and its identifier is refused.
const STALE: [Row; 7] = [
    (5, C, On(BinSemDelete, S), Done),
    (5, C, Active(S), Gives(0)),
    (5, C, Timed(BinSemTake, S, Check), Refused(ErrInvalidId)),
    (5, C, On(BinSemGive, S), Refused(ErrInvalidId)),
    (5, C, On(BinSemFlush, S), Refused(ErrInvalidId)),
    (5, C, On(BinSemInfo, S), Refused(ErrInvalidId)),
    (5, C, Named(BinSemFind, b"s"), Refused(ErrNameNotFound)),
];

#[test]
fn a_semaphore_stays_while_it_is_held_or_waited_for(rt: HostRuntime) -> Result<(), Fail> {
    follow(&rt, 64, 20, &[&HELD, &LET_GO, &STALE])
}

/// A semaphore is held a million times, but for one.
const HOLDS: [Row; 2] = [
    (0, A, Valued(BinSemCreate, b"s", 0), Gives(S)),
    (0, A, Often(999_999, Hold, S), Done),
];

/// A take that waits holds it once more.
const MILLION: [Row; 8] = [
    (0, A, Timed(BinSemTake, S, Pend), Waits),
    (0, C, On(Hold, S), Refused(Error)),
    (0, B, Timed(BinSemTake, S, Pend), Waits),
    (0, C, On(Release, S), Done),
    (0, C, On(Hold, S), Refused(Error)),
    (0, C, On(Release, S), Done),
    (0, C, On(Hold, S), Done),
    (0, C, On(Hold, S), Refused(Error)),
];

#[test]
fn a_hold_is_refused_at_a_million(rt: HostRuntime) -> Result<(), Fail> {
    follow(&rt, 2, 20, &[&HOLDS, &MILLION])
}
