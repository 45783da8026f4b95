//! What the task part answers, call by call, at the moment and to the task of each row.
use crate::tests::fixture::Ask::{
    Abandon, Active, Checkpoint, End, Goes, Named, Numbered, On, Ready, TaskCreate, TaskDelay,
    TaskExit,
};
use crate::tests::fixture::Want::{Deleted, Done, Gives, Go, Refused, Tells, Waits};
use crate::tests::fixture::{A, B, C, LONG, NINETEEN, NO_PART, Row, TASKS, follow};
use osal_base::Status::{
    ErrIncorrectObjState, ErrInvalidArgument, ErrInvalidId, ErrInvalidPriority, ErrNameNotFound,
    ErrNameTaken, ErrNameTooLong, ErrNoFreeIds, ErrObjectInUse, Error,
};
use osal_call::NameWord::TaskFind;
use osal_call::NumberWord::TaskSetPriority;
use osal_call::ObjectWord::{Hold, Release, TaskDelete, TaskInfo};
use std::test::Fail;

/// Creates, each refused by its first fault or granted, and what is found then.
const CREATES: [Row; 12] = [
    (0, A, TaskCreate(b"", 0, 256), Refused(ErrInvalidArgument)),
    (0, A, TaskCreate(LONG, 0, 256), Refused(ErrNameTooLong)),
    (
        0,
        A,
        TaskCreate(b"a\0", 0, 256),
        Refused(ErrInvalidArgument),
    ),
    (0, A, TaskCreate(b"a", 0, 256), Refused(ErrInvalidPriority)),
    (0, A, TaskCreate(b"a", 0, 255), Gives(A)),
    (0, A, TaskCreate(b"a", 0, 256), Refused(ErrInvalidPriority)),
    (0, A, TaskCreate(b"a", 0, 0), Refused(ErrNameTaken)),
    (0, A, TaskCreate(NINETEEN, 0, 0), Gives(B)),
    (0, A, TaskCreate(b"a", 0, 0), Refused(ErrNameTaken)),
    (0, A, TaskCreate(b"c", 0, 0), Refused(ErrNoFreeIds)),
    (0, A, Named(TaskFind, b"c"), Refused(ErrNameNotFound)),
    (0, A, Named(TaskFind, NINETEEN), Gives(B)),
];

#[test]
fn a_create_is_refused_by_its_first_fault(rt: HostRuntime) -> Result<(), Fail> {
    follow(&rt, 2, 2, &[&CREATES])
}

/// A stack size and priorities, and what is told of them.
const SETTINGS: [Row; 12] = [
    (0, A, TaskCreate(b"main", 0xFFFF_FFFF, 255), Gives(A)),
    (0, A, On(TaskInfo, A), Tells(0xFF_FFFF_FFFF, b"main")),
    (
        0,
        A,
        Numbered(TaskSetPriority, A, 256),
        Refused(ErrInvalidPriority),
    ),
    (
        0,
        A,
        Numbered(TaskSetPriority, B, 256),
        Refused(ErrInvalidPriority),
    ),
    (
        0,
        A,
        Numbered(TaskSetPriority, B, 255),
        Refused(ErrInvalidId),
    ),
    (0, A, On(TaskInfo, A), Tells(0xFF_FFFF_FFFF, b"main")),
    (0, B, Numbered(TaskSetPriority, A, 0), Done),
    (0, A, On(TaskInfo, A), Tells(0xFF_FFFF_FF00, b"main")),
    (0, A, On(TaskInfo, B), Refused(ErrInvalidId)),
    (0, A, On(TaskInfo, 0x0004_0001), Refused(ErrInvalidId)),
    (0, A, TaskCreate(b"b", 0, 0), Gives(B)),
    (0, A, On(TaskInfo, B), Tells(0, b"b")),
];

#[test]
fn a_task_tells_its_stack_and_priority(rt: HostRuntime) -> Result<(), Fail> {
    follow(&rt, 64, 2, &[&SETTINGS])
}

/// Two tasks, of which the first deletes the second.
const DELETED: [Row; 9] = [
    (0, A, TaskCreate(b"a", 0, 9), Gives(A)),
    (0, A, TaskCreate(b"b", 0, 9), Gives(B)),
    (0, B, Checkpoint, Go),
    (0, A, On(TaskDelete, C), Refused(ErrInvalidId)),
    (0, A, On(Hold, B), Done),
    (0, A, On(TaskDelete, B), Refused(ErrObjectInUse)),
    (0, A, On(Release, B), Done),
    (0, A, Goes(B), Gives(1)),
    (0, A, On(TaskDelete, B), Done),
];

/// The second task has still to come to a checkpoint.
const GOING: [Row; 9] = [
    (0, A, On(TaskDelete, B), Refused(ErrIncorrectObjState)),
    (0, A, On(Hold, B), Refused(ErrIncorrectObjState)),
    (0, A, On(Release, B), Refused(ErrIncorrectObjState)),
    (0, A, Numbered(TaskSetPriority, B, 3), Done),
    (0, A, On(TaskInfo, B), Tells(3, b"b")),
    (0, A, TaskCreate(b"b", 0, 9), Refused(ErrNameTaken)),
    (0, A, Goes(B), Gives(0)),
    (0, A, Active(B), Gives(1)),
    (0, A, Checkpoint, Go),
];

/// It comes there, and is gone.
const GONE: [Row; 9] = [
    (0, B, Checkpoint, Deleted),
    (0, B, Checkpoint, Refused(ErrInvalidId)),
    (0, A, Active(B), Gives(0)),
    (0, A, Goes(B), Gives(0)),
    (0, A, On(TaskDelete, B), Refused(ErrInvalidId)),
    (0, A, Named(TaskFind, b"b"), Refused(ErrNameNotFound)),
    (0, A, TaskCreate(b"b", 0, 9), Gives(C)),
    (0, A, On(TaskDelete, A), Done),
    (0, A, Checkpoint, Deleted),
];

#[test]
fn a_deleted_task_goes_until_its_next_checkpoint(rt: HostRuntime) -> Result<(), Fail> {
    follow(&rt, 64, 2, &[&DELETED, &GOING, &GONE])
}

/// A task that is held comes to its exit.
const HELD: [Row; 9] = [
    (0, A, TaskCreate(b"a", 0, 9), Gives(A)),
    (0, A, TaskCreate(b"b", 0, 9), Gives(B)),
    (0, A, On(Hold, B), Done),
    (0, B, On(Hold, B), Done),
    (0, B, On(Release, B), Done),
    (0, B, TaskExit, Refused(ErrObjectInUse)),
    (0, B, Checkpoint, Go),
    (0, A, On(Release, B), Done),
    (0, A, On(Release, B), Refused(ErrIncorrectObjState)),
];

/// It is held no more, and exits.
const EXITED: [Row; 8] = [
    (0, B, TaskExit, Done),
    (0, B, TaskExit, Refused(ErrInvalidId)),
    (0, A, On(Hold, B), Refused(ErrInvalidId)),
    (0, A, On(Release, B), Refused(ErrInvalidId)),
    (0, A, Active(A), Gives(1)),
    (0, A, On(TaskDelete, A), Done),
    (0, A, TaskExit, Done),
    (0, A, Checkpoint, Refused(ErrInvalidId)),
];

#[test]
fn a_held_task_does_not_exit(rt: HostRuntime) -> Result<(), Fail> {
    follow(&rt, 64, 2, &[&HELD, &EXITED])
}

/// A task delays itself.
const DELAYED: [Row; 6] = [
    (100, A, TaskDelay(0), Done),
    (100, A, End(TASKS), Refused(ErrIncorrectObjState)),
    (100, A, Ready(TASKS), Gives(1)),
    (100, A, TaskDelay(50), Waits),
    (100, A, TaskDelay(10), Refused(ErrIncorrectObjState)),
    (100, A, TaskDelay(0), Done),
];

/// Its delay is over 50 milliseconds later.
const OVER: [Row; 8] = [
    (149, A, Ready(TASKS), Gives(0)),
    (149, A, End(TASKS), Waits),
    (150, B, End(TASKS), Refused(ErrIncorrectObjState)),
    (150, A, End(NO_PART), Refused(ErrIncorrectObjState)),
    (149, A, Ready(NO_PART), Gives(1)),
    (150, A, Ready(TASKS), Gives(1)),
    (150, A, End(TASKS), Done),
    (150, A, End(TASKS), Refused(ErrIncorrectObjState)),
];

/// Delays that are over far off.
const FAR: [Row; 8] = [
    (0, A, TaskDelay(0xFFFF_FFFF), Waits),
    (0xFFFF_FFFE, A, End(TASKS), Waits),
    (0xFFFF_FFFF, A, End(TASKS), Done),
    (u64::MAX - 1, A, TaskDelay(5), Waits),
    (u64::MAX - 1, A, End(TASKS), Waits),
    (u64::MAX, A, End(TASKS), Done),
    (u64::MAX, A, TaskDelay(1), Waits),
    (u64::MAX, A, End(TASKS), Done),
];

#[test]
fn a_delay_is_over_at_its_deadline(rt: HostRuntime) -> Result<(), Fail> {
    follow(&rt, 64, 2, &[&DELAYED, &OVER, &FAR])
}

/// Two tasks delay themselves, and there is room for no third.
const TWO_DELAYS: [Row; 6] = [
    (0, A, TaskCreate(b"a", 0, 9), Gives(A)),
    (0, A, TaskDelay(10), Waits),
    (0, B, On(Release, A), Refused(ErrIncorrectObjState)),
    (0, A, TaskExit, Done),
    (0, B, TaskDelay(10), Waits),
    (0, C, TaskDelay(10), Refused(Error)),
];

/// A place comes free for the third.
const PLACES: [Row; 10] = [
    (0, A, TaskDelay(10), Refused(ErrIncorrectObjState)),
    (0, C, TaskDelay(0), Done),
    (0, A, Abandon(NO_PART), Refused(ErrIncorrectObjState)),
    (0, C, Abandon(TASKS), Refused(ErrIncorrectObjState)),
    (0, A, Abandon(TASKS), Done),
    (0, A, Abandon(TASKS), Refused(ErrIncorrectObjState)),
    (0, C, TaskDelay(20), Waits),
    (10, B, End(TASKS), Done),
    (10, C, End(TASKS), Waits),
    (20, C, End(TASKS), Done),
];

#[test]
fn a_delay_holds_nothing_and_takes_one_place(rt: HostRuntime) -> Result<(), Fail> {
    follow(&rt, 2, 2, &[&TWO_DELAYS, &PLACES])
}
