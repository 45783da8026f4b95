//! What the part of counting semaphores answers, call by call, at the moment and to the task of each row.
use crate::tests::fixture::Ask::{
    Abandon, Active, Advance, Deadline, End, Named, On, Ready, Timed, Valued,
};
use crate::tests::fixture::Want::{Done, Gives, Refused, Tells, Waits};
use crate::tests::fixture::{A, B, C, COUNT_SEMS, Row, follow};
use osal_base::Status::{
    ErrIncorrectObjState, ErrInvalidArgument, ErrInvalidId, ErrNameNotFound, ErrNameTaken,
    ErrNoFreeIds, ErrObjectInUse, Error, InvalidSemValue, SemFailure, SemTimeout,
};
use osal_base::Timeout::{Check, Ms, Pend};
use osal_call::NameWord::CountSemFind;
use osal_call::ObjectWord::{CountSemDelete, CountSemGive, CountSemInfo, Hold, Release};
use osal_call::ValueWord::CountSemCreate;
use osal_call::WaitWord::CountSemTake;
use std::test::Fail;

const S: u32 = 0x0003_0001;

const T: u32 = 0x0003_0002;

/// The greatest value.
const GREATEST: [Row; 10] = [
    (
        0,
        A,
        Valued(CountSemCreate, b"", 32_768),
        Refused(ErrInvalidArgument),
    ),
    (
        0,
        A,
        Valued(CountSemCreate, b"s", 32_768),
        Refused(InvalidSemValue),
    ),
    (0, A, Valued(CountSemCreate, b"s", 32_767), Gives(S)),
    (0, A, On(CountSemInfo, S), Tells(32_767, b"s")),
    (0, A, On(CountSemGive, S), Refused(SemFailure)),
    (0, A, On(CountSemInfo, S), Tells(32_767, b"s")),
    (0, A, Timed(CountSemTake, S, Check), Done),
    (0, A, On(CountSemInfo, S), Tells(32_766, b"s")),
    (0, A, On(CountSemGive, S), Done),
    (0, A, On(CountSemGive, S), Refused(SemFailure)),
];

/// Names that are taken, and a table that is full.
const NAMES: [Row; 7] = [
    (
        0,
        A,
        Valued(CountSemCreate, b"s", u32::MAX),
        Refused(InvalidSemValue),
    ),
    (0, A, Valued(CountSemCreate, b"s", 0), Refused(ErrNameTaken)),
    (0, A, Valued(CountSemCreate, b"t", 0), Gives(T)),
    (
        0,
        A,
        Valued(CountSemCreate, b"u", 32_768),
        Refused(InvalidSemValue),
    ),
    (0, A, Valued(CountSemCreate, b"u", 0), Refused(ErrNoFreeIds)),
    (0, A, Named(CountSemFind, b"t"), Gives(T)),
    (0, A, Named(CountSemFind, b"u"), Refused(ErrNameNotFound)),
];

#[test]
fn a_value_is_at_most_32767(rt: HostRuntime) -> Result<(), Fail> {
    follow(&rt, 64, 2, &[&GREATEST, &NAMES])
}

/// A task takes what is there, and waits.
const ONE_WAITS: [Row; 9] = [
    (0, A, Valued(CountSemCreate, b"s", 2), Gives(S)),
    (0, A, Timed(CountSemTake, S, Pend), Done),
    (0, A, Timed(CountSemTake, S, Ms(5)), Done),
    (0, A, On(CountSemInfo, S), Tells(0, b"s")),
    (0, A, Timed(CountSemTake, S, Check), Refused(SemTimeout)),
    (0, A, Timed(CountSemTake, S, Ms(0)), Refused(SemTimeout)),
    (0, A, Timed(CountSemTake, S, Pend), Waits),
    (
        0,
        A,
        Timed(CountSemTake, S, Ms(5)),
        Refused(ErrIncorrectObjState),
    ),
    (0, A, Timed(CountSemTake, S, Check), Refused(SemTimeout)),
];

/// Two tasks wait, and there is room for no third.
const TWO_WAIT: [Row; 9] = [
    (0, B, Timed(CountSemTake, S, Ms(5)), Waits),
    (0, C, Timed(CountSemTake, S, Pend), Refused(Error)),
    (0, C, Timed(CountSemTake, S, Check), Refused(SemTimeout)),
    (0, C, On(CountSemGive, S), Done),
    (0, C, Timed(CountSemTake, S, Pend), Done),
    (0, A, End(COUNT_SEMS), Waits),
    (0, A, Abandon(COUNT_SEMS), Done),
    (0, A, Abandon(COUNT_SEMS), Refused(ErrIncorrectObjState)),
    (0, C, Timed(CountSemTake, S, Pend), Waits),
];

#[test]
fn a_take_at_0_is_refused_or_waits(rt: HostRuntime) -> Result<(), Fail> {
    follow(&rt, 2, 2, &[&ONE_WAITS, &TWO_WAIT])
}

/// Two takes wait, and one of them is due later.
const TWO_TAKES: [Row; 10] = [
    (100, A, Valued(CountSemCreate, b"s", 0), Gives(S)),
    (100, A, Ready(COUNT_SEMS), Gives(1)),
    (100, A, End(COUNT_SEMS), Refused(ErrIncorrectObjState)),
    (100, A, Timed(CountSemTake, S, Pend), Waits),
    (100, A, Advance(100), Done),
    (100, A, Deadline, Gives(0)),
    (100, B, Timed(CountSemTake, S, Ms(50)), Waits),
    (100, A, Deadline, Gives(150)),
    (149, B, Ready(COUNT_SEMS), Gives(0)),
    (149, B, End(COUNT_SEMS), Waits),
];

/// A give ends one wait, and the deadline another.
const ONE_GIVE: [Row; 9] = [
    (149, C, On(CountSemGive, S), Done),
    (149, A, Ready(COUNT_SEMS), Gives(1)),
    (149, B, Ready(COUNT_SEMS), Gives(1)),
    (149, B, End(COUNT_SEMS), Done),
    (149, A, Ready(COUNT_SEMS), Gives(0)),
    (149, A, End(COUNT_SEMS), Waits),
    (149, B, Timed(CountSemTake, S, Ms(1)), Waits),
    (150, B, Ready(COUNT_SEMS), Gives(1)),
    (150, B, End(COUNT_SEMS), Refused(SemTimeout)),
];

/// Gives end both waits, and one is left.
const THREE_GIVES: [Row; 8] = [
    (150, B, On(CountSemInfo, S), Tells(0, b"s")),
    (150, B, Timed(CountSemTake, S, Ms(5)), Waits),
    (155, C, On(CountSemGive, S), Done),
    (155, C, On(CountSemGive, S), Done),
    (155, C, On(CountSemGive, S), Done),
    (155, B, End(COUNT_SEMS), Done),
    (155, A, End(COUNT_SEMS), Done),
    (155, A, On(CountSemInfo, S), Tells(1, b"s")),
];

#[test]
fn a_take_that_waits_ends_with_a_give_or_at_its_deadline(rt: HostRuntime) -> Result<(), Fail> {
    follow(&rt, 64, 2, &[&TWO_TAKES, &ONE_GIVE, &THREE_GIVES])
}

/// A semaphore is held and waited for, let go, and deleted.
const HELD: [Row; 12] = [
    (0, A, Valued(CountSemCreate, b"s", 0), Gives(S)),
    (0, A, On(Hold, S), Done),
    (0, A, On(CountSemDelete, S), Refused(ErrObjectInUse)),
    (0, A, Timed(CountSemTake, S, Pend), Waits),
    (0, C, On(Release, S), Done),
    (0, C, On(Release, S), Refused(ErrIncorrectObjState)),
    (0, C, On(CountSemDelete, S), Refused(ErrObjectInUse)),
    (0, C, On(CountSemGive, S), Done),
    (0, A, End(COUNT_SEMS), Done),
    (0, C, Active(S), Gives(1)),
    (0, C, On(CountSemDelete, S), Done),
    (0, C, Active(S), Gives(0)),
];

/// Its identifier is refused.
const STALE: [Row; 9] = [
    (0, C, Valued(CountSemCreate, b"t", 1), Gives(T)),
    (0, C, On(CountSemDelete, S), Refused(ErrInvalidId)),
    (0, C, Timed(CountSemTake, S, Pend), Refused(ErrInvalidId)),
    (0, C, On(CountSemGive, S), Refused(ErrInvalidId)),
    (0, C, On(CountSemInfo, S), Refused(ErrInvalidId)),
    (0, C, On(Hold, S), Refused(ErrInvalidId)),
    (0, C, On(Release, S), Refused(ErrInvalidId)),
    (0, C, Named(CountSemFind, b"s"), Refused(ErrNameNotFound)),
    (0, C, On(CountSemInfo, T), Tells(1, b"t")),
];

#[test]
fn a_semaphore_stays_while_it_is_held_or_waited_for(rt: HostRuntime) -> Result<(), Fail> {
    follow(&rt, 64, 2, &[&HELD, &STALE])
}
