//! What the part of condition variables answers, call by call, at the moment and to the task of each row.
use crate::tests::fixture::Ask::{
    Abandon, Active, Advance, Deadline, End, Named, On, Ready, Timed,
};
use crate::tests::fixture::Want::{Done, Gives, Refused, Waits};
use crate::tests::fixture::{A, B, C, CONDVARS, LONG, Row, follow};
use osal_base::Status::{
    ErrIncorrectObjState, ErrInvalidArgument, ErrInvalidId, ErrNameNotFound, ErrNameTaken,
    ErrNameTooLong, ErrNoFreeIds, ErrObjectInUse, Error, ErrorTimeout, SemFailure,
};
use osal_base::Timeout::{Check, Ms, Pend};
use osal_call::NameWord::{CondvarCreate, CondvarFind};
use osal_call::ObjectWord::{
    CondvarBroadcast, CondvarDelete, CondvarLock, CondvarSignal, CondvarUnlock, Hold, Release,
};
use osal_call::WaitWord::CondvarWait;
use std::test::Fail;

const V: u32 = 0x000D_0001;

const W: u32 = 0x000D_0002;

const X: u32 = 0x000D_0003;

/// Creates, and what is found then.
const CREATES: [Row; 3] = [
    (0, A, Named(CondvarCreate, b"v"), Gives(V)),
    (0, A, Named(CondvarCreate, b"w"), Gives(W)),
    (0, A, On(CondvarDelete, X), Refused(ErrInvalidId)),
];

/// A condition variable is locked and waited for.
const USED: [Row; 6] = [
    (0, A, On(CondvarLock, V), Done),
    (0, A, On(CondvarDelete, V), Refused(ErrObjectInUse)),
    (0, A, Timed(CondvarWait, V, Pend), Waits),
    (0, B, On(Release, V), Refused(ErrIncorrectObjState)),
    (0, B, On(CondvarDelete, V), Refused(ErrObjectInUse)),
    (0, A, Abandon(CONDVARS), Done),
];

/// It is deleted, and its identifier is refused.
const STALE: [Row; 9] = [
    (0, B, On(CondvarDelete, V), Done),
    (0, B, Active(V), Gives(0)),
    (0, B, Named(CondvarFind, b"v"), Refused(ErrNameNotFound)),
    (0, B, Named(CondvarCreate, b"v"), Gives(X)),
    (0, B, On(CondvarLock, V), Refused(ErrInvalidId)),
    (0, B, On(CondvarUnlock, V), Refused(ErrInvalidId)),
    (0, B, On(CondvarSignal, V), Refused(ErrInvalidId)),
    (0, B, On(CondvarBroadcast, V), Refused(ErrInvalidId)),
    (0, B, Timed(CondvarWait, V, Check), Refused(ErrInvalidId)),
];

#[test]
fn a_condition_variable_stays_while_it_is_held_or_locked(rt: HostRuntime) -> Result<(), Fail> {
    follow(&rt, 2, 2, &[&CREATES, &USED, &STALE])
}

/// One task has the lock, and another waits for it.
const LOCKED: [Row; 12] = [
    (0, A, Named(CondvarCreate, b"v"), Gives(V)),
    (0, A, On(CondvarUnlock, V), Refused(SemFailure)),
    (0, A, On(CondvarLock, V), Done),
    (0, A, On(CondvarLock, V), Refused(SemFailure)),
    (0, B, On(CondvarUnlock, V), Refused(SemFailure)),
    (0, B, Ready(CONDVARS), Gives(1)),
    (0, B, End(CONDVARS), Refused(ErrIncorrectObjState)),
    (0, B, On(CondvarLock, V), Waits),
    (0, B, On(CondvarLock, V), Refused(ErrIncorrectObjState)),
    (0, A, On(CondvarBroadcast, V), Done),
    (u64::MAX, B, Ready(CONDVARS), Gives(0)),
    (u64::MAX, B, End(CONDVARS), Waits),
];

/// The lock goes on to the other, and two tasks wait.
const HANDED_ON: [Row; 9] = [
    (0, A, On(CondvarUnlock, V), Done),
    (0, B, Ready(CONDVARS), Gives(1)),
    (0, B, End(CONDVARS), Done),
    (0, A, On(CondvarUnlock, V), Refused(SemFailure)),
    (0, A, On(CondvarLock, V), Waits),
    (0, C, On(CondvarLock, V), Waits),
    (0, X, On(CondvarLock, V), Refused(Error)),
    (0, A, Abandon(CONDVARS), Done),
    (0, A, Abandon(CONDVARS), Refused(ErrIncorrectObjState)),
];

/// The lock goes round, and is free.
const UNLOCKED: [Row; 7] = [
    (0, B, On(CondvarUnlock, V), Done),
    (0, A, On(CondvarLock, V), Done),
    (0, C, End(CONDVARS), Waits),
    (0, A, On(CondvarUnlock, V), Done),
    (0, C, End(CONDVARS), Done),
    (0, C, On(CondvarUnlock, V), Done),
    (0, A, On(CondvarDelete, V), Done),
];

#[test]
fn the_lock_has_one_owner_and_others_wait_for_it(rt: HostRuntime) -> Result<(), Fail> {
    follow(&rt, 2, 2, &[&LOCKED, &HANDED_ON, &UNLOCKED])
}

/// Two tasks wait, and the first is signalled.
const SIGNALLED: [Row; 12] = [
    (0, A, Named(CondvarCreate, b"v"), Gives(V)),
    (0, A, On(CondvarSignal, V), Done),
    (0, A, Timed(CondvarWait, V, Pend), Refused(SemFailure)),
    (0, A, On(CondvarLock, V), Done),
    (0, A, Timed(CondvarWait, V, Pend), Waits),
    (0, A, End(CONDVARS), Waits),
    (0, B, On(CondvarLock, V), Done),
    (0, B, Timed(CondvarWait, V, Pend), Waits),
    (0, C, On(CondvarLock, V), Done),
    (0, C, On(CondvarSignal, V), Done),
    (0, A, Ready(CONDVARS), Gives(0)),
    (0, A, End(CONDVARS), Waits),
];

/// Each signal goes to the one that has waited longer.
const LONGEST: [Row; 12] = [
    (0, C, On(CondvarUnlock, V), Done),
    (0, B, End(CONDVARS), Waits),
    (0, A, Ready(CONDVARS), Gives(1)),
    (0, A, End(CONDVARS), Done),
    (0, A, Timed(CondvarWait, V, Pend), Waits),
    (0, C, On(CondvarSignal, V), Done),
    (0, C, On(CondvarSignal, V), Done),
    (0, A, End(CONDVARS), Done),
    (0, B, End(CONDVARS), Waits),
    (0, A, On(CondvarUnlock, V), Done),
    (0, B, End(CONDVARS), Done),
    (0, B, On(CondvarUnlock, V), Done),
];

#[test]
fn a_signal_goes_to_the_task_that_has_waited_longest(rt: HostRuntime) -> Result<(), Fail> {
    follow(&rt, 2, 2, &[&SIGNALLED, &LONGEST])
}

/// Two tasks wait for one of two condition variables.
const BOTH_WAIT: [Row; 11] = [
    (0, A, Named(CondvarCreate, b"v"), Gives(V)),
    (0, A, Named(CondvarCreate, b"w"), Gives(W)),
    (0, A, On(CondvarLock, W), Done),
    (0, A, On(CondvarLock, V), Done),
    (0, A, Timed(CondvarWait, V, Pend), Waits),
    (0, A, Timed(CondvarWait, V, Pend), Refused(SemFailure)),
    (
        0,
        A,
        Timed(CondvarWait, W, Pend),
        Refused(ErrIncorrectObjState),
    ),
    (0, A, On(CondvarUnlock, W), Done),
    (0, C, On(CondvarLock, W), Done),
    (0, B, On(CondvarLock, V), Done),
    (0, B, Timed(CondvarWait, V, Pend), Waits),
];

/// A broadcast to the other, and then to theirs.
const BROADCAST: [Row; 11] = [
    (0, C, Timed(CondvarWait, W, Check), Refused(ErrorTimeout)),
    (0, C, Timed(CondvarWait, W, Pend), Refused(Error)),
    (0, C, On(CondvarLock, W), Refused(SemFailure)),
    (0, C, On(CondvarBroadcast, W), Done),
    (0, A, End(CONDVARS), Waits),
    (0, C, On(CondvarBroadcast, V), Done),
    (0, B, End(CONDVARS), Done),
    (0, A, End(CONDVARS), Waits),
    (0, B, On(CondvarUnlock, V), Done),
    (0, A, End(CONDVARS), Done),
    (0, A, On(CondvarLock, V), Refused(SemFailure)),
];

#[test]
fn a_broadcast_signals_each_and_they_end_one_by_one(rt: HostRuntime) -> Result<(), Fail> {
    follow(&rt, 2, 2, &[&BOTH_WAIT, &BROADCAST])
}

/// A wait is due, and the lock is free.
const DUE: [Row; 12] = [
    (100, A, Named(CondvarCreate, b"v"), Gives(V)),
    (100, A, On(CondvarLock, V), Done),
    (100, A, Timed(CondvarWait, V, Ms(0)), Refused(ErrorTimeout)),
    (100, A, On(CondvarLock, V), Refused(SemFailure)),
    (100, A, Timed(CondvarWait, V, Ms(50)), Waits),
    (100, A, Advance(100), Done),
    (100, A, Deadline, Gives(150)),
    (149, A, End(CONDVARS), Waits),
    (150, A, Ready(CONDVARS), Gives(1)),
    (150, A, End(CONDVARS), Refused(ErrorTimeout)),
    (150, A, Advance(150), Done),
    (150, A, Deadline, Gives(0)),
];

/// A wait is due while another task has the lock.
const LATER: [Row; 12] = [
    (150, A, Timed(CondvarWait, V, Ms(50)), Waits),
    (160, B, On(CondvarLock, V), Done),
    (200, A, Ready(CONDVARS), Gives(0)),
    (200, A, End(CONDVARS), Waits),
    (300, B, On(CondvarUnlock, V), Done),
    (300, A, End(CONDVARS), Refused(ErrorTimeout)),
    (300, A, Timed(CondvarWait, V, Ms(50)), Waits),
    (300, B, On(CondvarLock, V), Done),
    (400, B, On(CondvarSignal, V), Done),
    (400, B, On(CondvarUnlock, V), Done),
    (400, A, End(CONDVARS), Done),
    (400, A, On(CondvarUnlock, V), Done),
];

#[test]
fn a_wait_that_is_due_ends_once_the_lock_is_free(rt: HostRuntime) -> Result<(), Fail> {
    follow(&rt, 2, 2, &[&DUE, &LATER])
}
