//! What the part of mutexes answers, call by call, to the task of each row.
use crate::tests::fixture::Ask::{
    Abandon, Active, Advance, Deadline, End, Named, Often, On, Ready,
};
use crate::tests::fixture::Want::{Done, Gives, Refused, Tells, Waits};
use crate::tests::fixture::{A, B, BY_A, BY_B, C, MUTEXES, Row, follow};
use osal_base::Status::{
    ErrIncorrectObjState, ErrInvalidArgument, ErrInvalidId, ErrNameNotFound, ErrNameTaken,
    ErrNoFreeIds, ErrObjectInUse, Error, SemFailure,
};
use osal_call::NameWord::{MutSemCreate, MutSemFind};
use osal_call::ObjectWord::{Hold, MutSemDelete, MutSemGive, MutSemInfo, MutSemTake, Release};
use std::test::Fail;

const M: u32 = 0x0005_0001;

const N: u32 = 0x0005_0002;

/// Mutexes of two tasks, and what is told of them.
const CREATES: [Row; 6] = [
    (100, B, Named(MutSemCreate, b"m"), Gives(M)),
    (100, A, Named(MutSemCreate, b"n"), Gives(N)),
    (100, A, On(MutSemTake, M), Done),
    (100, C, On(MutSemInfo, M), Tells(BY_B, b"m")),
    (100, C, On(MutSemInfo, N), Tells(BY_A, b"n")),
    (100, C, Named(MutSemFind, b"n"), Gives(N)),
];

#[test]
fn a_mutex_tells_the_task_that_made_it(rt: HostRuntime) -> Result<(), Fail> {
    follow(&rt, 2, 2, &[&CREATES])
}

/// A task takes a mutex twice, and another waits.
const DEEPER: [Row; 9] = [
    (100, A, Named(MutSemCreate, b"m"), Gives(M)),
    (100, A, On(MutSemGive, M), Refused(SemFailure)),
    (100, A, On(MutSemTake, M), Done),
    (100, A, On(MutSemTake, M), Done),
    (100, B, On(MutSemGive, M), Refused(SemFailure)),
    (100, B, On(MutSemTake, M), Waits),
    (100, A, On(MutSemGive, M), Done),
    (100, B, Ready(MUTEXES), Gives(0)),
    (100, B, End(MUTEXES), Waits),
];

/// It gives the mutex twice, and the other takes it.
const GIVEN: [Row; 12] = [
    (100, A, On(MutSemTake, M), Done),
    (100, A, On(MutSemGive, M), Done),
    (100, B, End(MUTEXES), Waits),
    (100, A, On(MutSemGive, M), Done),
    (100, B, Ready(MUTEXES), Gives(1)),
    (100, B, End(MUTEXES), Done),
    (100, A, On(MutSemGive, M), Refused(SemFailure)),
    (100, B, On(MutSemTake, M), Done),
    (100, B, On(MutSemGive, M), Done),
    (100, B, On(MutSemGive, M), Done),
    (100, B, On(MutSemGive, M), Refused(SemFailure)),
    (100, A, On(MutSemTake, M), Done),
];

#[test]
fn the_owner_alone_takes_deeper_and_gives(rt: HostRuntime) -> Result<(), Fail> {
    follow(&rt, 2, 2, &[&DEEPER, &GIVEN])
}

/// Two tasks wait for a mutex that a third owns.
const OWNED: [Row; 11] = [
    (100, A, Named(MutSemCreate, b"m"), Gives(M)),
    (100, A, Named(MutSemCreate, b"n"), Gives(N)),
    (100, A, On(MutSemTake, M), Done),
    (100, C, On(MutSemTake, N), Done),
    (100, A, Ready(MUTEXES), Gives(1)),
    (100, A, End(MUTEXES), Refused(ErrIncorrectObjState)),
    (100, A, On(MutSemTake, N), Waits),
    (100, A, On(MutSemTake, M), Done),
    (100, B, On(MutSemTake, N), Waits),
    (100, B, On(MutSemTake, M), Refused(ErrIncorrectObjState)),
    (100, C, On(MutSemTake, M), Refused(Error)),
];

/// No wait is ever due. The third gives the mutex, and one of them takes it.
const FREE: [Row; 12] = [
    (100, A, Advance(100), Done),
    (100, A, Deadline, Gives(0)),
    (100, C, On(MutSemGive, N), Done),
    (100, A, Ready(MUTEXES), Gives(1)),
    (100, B, Ready(MUTEXES), Gives(1)),
    (100, B, End(MUTEXES), Done),
    (100, A, Ready(MUTEXES), Gives(0)),
    (100, A, End(MUTEXES), Waits),
    (100, A, Abandon(MUTEXES), Done),
    (100, A, Abandon(MUTEXES), Refused(ErrIncorrectObjState)),
    (100, A, On(MutSemGive, N), Refused(SemFailure)),
    (100, B, On(MutSemGive, N), Done),
];

#[test]
fn each_other_task_waits_until_the_mutex_is_free(rt: HostRuntime) -> Result<(), Fail> {
    follow(&rt, 2, 2, &[&OWNED, &FREE])
}

/// A mutex is owned, held and waited for.
const USED: [Row; 11] = [
    (100, A, Named(MutSemCreate, b"m"), Gives(M)),
    (100, A, On(MutSemTake, M), Done),
    (100, A, On(MutSemDelete, M), Refused(ErrObjectInUse)),
    (100, A, On(Hold, M), Done),
    (100, A, On(MutSemDelete, M), Refused(ErrObjectInUse)),
    (100, B, On(MutSemTake, M), Waits),
    (100, A, On(MutSemGive, M), Done),
    (100, A, On(Release, M), Done),
    (100, A, On(Release, M), Refused(ErrIncorrectObjState)),
    (100, A, On(MutSemDelete, M), Refused(ErrObjectInUse)),
    (100, B, Abandon(MUTEXES), Done),
];

/// It is deleted, and its identifier is refused.
const STALE: [Row; 12] = [
    (100, A, Active(M), Gives(1)),
    (100, A, On(MutSemDelete, M), Done),
    (100, A, Active(M), Gives(0)),
    (100, A, Named(MutSemCreate, b"n"), Gives(N)),
    (100, A, On(MutSemDelete, M), Refused(ErrInvalidId)),
    (100, A, On(MutSemTake, M), Refused(ErrInvalidId)),
    (100, A, On(MutSemGive, M), Refused(ErrInvalidId)),
    (100, A, On(MutSemInfo, M), Refused(ErrInvalidId)),
    (100, A, On(Hold, M), Refused(ErrInvalidId)),
    (100, A, On(Release, M), Refused(ErrInvalidId)),
    (100, A, Named(MutSemFind, b"m"), Refused(ErrNameNotFound)),
    (100, A, On(MutSemTake, N), Done),
];

#[test]
fn a_mutex_stays_while_it_is_owned_held_or_waited_for(rt: HostRuntime) -> Result<(), Fail> {
    follow(&rt, 2, 2, &[&USED, &STALE])
}

/// A task takes a mutex as often as it may, but for one time.
const TAKES: [Row; 2] = [
    (100, A, Named(MutSemCreate, b"m"), Gives(M)),
    (100, A, Often(32_766, MutSemTake, M), Done),
];

/// It takes it once more, and not again before it gives it.
const MOST: [Row; 7] = [
    (100, A, On(MutSemTake, M), Done),
    (100, A, On(MutSemTake, M), Refused(SemFailure)),
    (100, B, On(MutSemTake, M), Waits),
    (100, A, On(MutSemGive, M), Done),
    (100, B, End(MUTEXES), Waits),
    (100, A, On(MutSemTake, M), Done),
    (100, A, On(MutSemTake, M), Refused(SemFailure)),
];

#[test]
fn the_owner_takes_a_mutex_32767_times_at_most(rt: HostRuntime) -> Result<(), Fail> {
    follow(&rt, 2, 2, &[&TAKES, &MOST])
}
