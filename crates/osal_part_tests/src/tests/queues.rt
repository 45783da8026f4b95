//! What the part of queues answers, call by call, at the moment and to the task of each row.
use crate::tests::fixture::Ask::{
    Abandon, Active, Advance, Deadline, End, Named, On, QueueCreate, QueueGet, QueuePut, Ready,
};
use crate::tests::fixture::Want::{Done, Gives, Refused, Tells, Waits};
use crate::tests::fixture::{A, B, BY_A, BY_B, C, LONG, NINETEEN, QUEUES, Row, follow};
use osal_base::Status::{
    ErrIncorrectObjState, ErrInvalidArgument, ErrInvalidId, ErrInvalidSize, ErrNameNotFound,
    ErrNameTaken, ErrNameTooLong, ErrNoFreeIds, ErrObjectInUse, Error, QueueEmpty, QueueFull,
    QueueInvalidSize, QueueTimeout,
};
use osal_base::Timeout::{Check, Ms, Pend};
use osal_call::NameWord::QueueFind;
use osal_call::ObjectWord::{Hold, QueueDelete, QueueInfo, Release};
use std::test::Fail;

const Q: u32 = 0x0002_0001;

const R: u32 = 0x0002_0002;

const S: u32 = 0x0002_0003;

/// Names and sizes that are refused, and the greatest sizes.
const SIZES: [Row; 7] = [
    (0, A, QueueCreate(LONG, 0, 1), Refused(ErrNameTooLong)),
    (0, A, QueueCreate(b"q", 0, 1), Refused(QueueInvalidSize)),
    (0, A, QueueCreate(b"q", 51, 1), Refused(QueueInvalidSize)),
    (0, A, QueueCreate(b"q", 1, 0), Refused(QueueInvalidSize)),
    (0, A, QueueCreate(b"q", 1, 1025), Refused(QueueInvalidSize)),
    (0, A, QueueCreate(b"q", 50, 1024), Gives(Q)),
    (0, A, On(QueueInfo, Q), Tells(BY_A, b"q")),
];

/// Names that are taken, a table that is full, and what is found then.
const NAMES: [Row; 10] = [
    (0, A, QueueCreate(b"q", 51, 1), Refused(QueueInvalidSize)),
    (0, A, QueueCreate(b"q", 1, 1), Refused(ErrNameTaken)),
    (0, B, QueueCreate(NINETEEN, 1, 1), Gives(R)),
    (0, A, On(QueueInfo, R), Tells(BY_B, NINETEEN)),
    (0, A, QueueCreate(b"s", 1, 1), Refused(ErrNoFreeIds)),
    (0, B, On(QueueDelete, Q), Done),
    (0, B, QueueCreate(b"s", 1, 1), Gives(S)),
    (0, A, Named(QueueFind, b"q"), Refused(ErrNameNotFound)),
    (0, A, Named(QueueFind, b"s"), Gives(S)),
    (0, A, Named(QueueFind, NINETEEN), Gives(R)),
];

#[test]
fn a_queue_is_created_where_its_name_and_its_sizes_may_be(rt: HostRuntime) -> Result<(), Fail> {
    follow(&rt, 1, 2, &[&SIZES, &NAMES])
}

/// A message goes in and comes out.
const ONE_MESSAGE: [Row; 11] = [
    (0, A, QueueCreate(b"q", 3, 4), Gives(Q)),
    (0, A, QueuePut(R, b""), Refused(ErrInvalidSize)),
    (0, A, QueuePut(R, b"abcde"), Refused(ErrInvalidId)),
    (0, A, QueuePut(Q, b"abcde"), Refused(QueueInvalidSize)),
    (0, A, QueuePut(Q, b"abcd"), Done),
    (0, B, QueueGet(R, 4, Check), Refused(ErrInvalidId)),
    (0, B, QueueGet(Q, 3, Pend), Refused(QueueInvalidSize)),
    (0, B, QueueGet(Q, 4, Pend), Tells(4, b"abcd")),
    (0, B, QueueGet(Q, 3, Check), Refused(QueueInvalidSize)),
    (0, B, QueueGet(Q, 4, Check), Refused(QueueEmpty)),
    (0, B, QueueGet(Q, 4, Ms(0)), Refused(QueueEmpty)),
];

/// Three messages fill the queue.
const FULL: [Row; 8] = [
    (0, A, QueuePut(Q, b"a"), Done),
    (0, A, QueuePut(Q, b"bc\0"), Done),
    (0, A, QueuePut(Q, b"def"), Done),
    (0, A, QueuePut(Q, b"g"), Refused(QueueFull)),
    (0, A, QueuePut(Q, b"ghijk"), Refused(QueueInvalidSize)),
    (0, B, QueueGet(Q, 5, Check), Tells(1, b"a")),
    (0, A, QueuePut(Q, b"ghij"), Done),
    (0, A, QueuePut(Q, b"k"), Refused(QueueFull)),
];

/// They come out in order.
const ORDER: [Row; 8] = [
    (0, B, QueueGet(Q, 4, Check), Tells(3, b"bc\0")),
    (0, B, QueueGet(Q, 4, Check), Tells(3, b"def")),
    (0, A, QueuePut(Q, b"k"), Done),
    (0, A, QueuePut(Q, b"lmno"), Done),
    (0, B, QueueGet(Q, 4, Check), Tells(4, b"ghij")),
    (0, B, QueueGet(Q, 4, Check), Tells(1, b"k")),
    (0, B, QueueGet(Q, 4, Check), Tells(4, b"lmno")),
    (0, B, QueueGet(Q, 4, Check), Refused(QueueEmpty)),
];

#[test]
fn messages_come_out_as_they_went_in(rt: HostRuntime) -> Result<(), Fail> {
    follow(&rt, 64, 20, &[&ONE_MESSAGE, &FULL, &ORDER])
}

/// A get waits until it is due.
const DUE: [Row; 12] = [
    (100, A, QueueCreate(b"q", 1, 4), Gives(Q)),
    (100, A, Ready(QUEUES), Gives(1)),
    (100, A, End(QUEUES), Refused(ErrIncorrectObjState)),
    (100, A, QueueGet(Q, 4, Ms(50)), Waits),
    (100, A, Advance(100), Done),
    (100, A, Deadline, Gives(150)),
    (100, A, QueueGet(Q, 4, Pend), Refused(ErrIncorrectObjState)),
    (149, A, Ready(QUEUES), Gives(0)),
    (149, A, End(QUEUES), Waits),
    (150, A, Ready(QUEUES), Gives(1)),
    (150, A, End(QUEUES), Refused(QueueTimeout)),
    (150, A, End(QUEUES), Refused(ErrIncorrectObjState)),
];

/// A get waits until a message is there.
const SERVED: [Row; 4] = [
    (150, A, QueueGet(Q, 4, Ms(50)), Waits),
    (199, B, QueuePut(Q, b"m"), Done),
    (199, A, Ready(QUEUES), Gives(1)),
    (200, A, End(QUEUES), Tells(1, b"m")),
];

/// Two gets wait for a message.
const TWO_WAIT: [Row; 12] = [
    (200, A, QueueGet(Q, 4, Pend), Waits),
    (200, B, QueueGet(Q, 4, Ms(10)), Waits),
    (200, C, QueueGet(Q, 4, Pend), Refused(Error)),
    (200, C, QueuePut(Q, b"one"), Done),
    (200, A, Ready(QUEUES), Gives(1)),
    (200, B, End(QUEUES), Tells(3, b"one")),
    (200, A, End(QUEUES), Waits),
    (u64::MAX, A, End(QUEUES), Waits),
    (u64::MAX, C, QueuePut(Q, b"two"), Done),
    (u64::MAX, A, Abandon(QUEUES), Done),
    (u64::MAX, A, Abandon(QUEUES), Refused(ErrIncorrectObjState)),
    (u64::MAX, C, QueueGet(Q, 4, Check), Tells(3, b"two")),
];

#[test]
fn a_get_that_waits_ends_where_a_message_is_there_or_it_is_due(
    rt: HostRuntime,
) -> Result<(), Fail> {
    follow(&rt, 2, 20, &[&DUE, &SERVED, &TWO_WAIT])
}

/// A queue is held, and two tasks wait for it.
const HELD: [Row; 10] = [
    (0, A, QueueCreate(b"q", 2, 4), Gives(Q)),
    (0, A, On(QueueDelete, R), Refused(ErrInvalidId)),
    (0, A, On(Release, Q), Refused(ErrIncorrectObjState)),
    (0, A, On(Hold, Q), Done),
    (0, A, On(QueueDelete, Q), Refused(ErrObjectInUse)),
    (0, A, QueueGet(Q, 4, Pend), Waits),
    (0, B, QueueGet(Q, 4, Ms(5)), Waits),
    (0, C, On(Release, Q), Done),
    (0, C, On(Release, Q), Refused(ErrIncorrectObjState)),
    (0, C, On(QueueDelete, Q), Refused(ErrObjectInUse)),
];

/// It is let go, and deleted.
const LET_GO: [Row; 10] = [
    (0, C, QueuePut(Q, b"m"), Done),
    (0, A, End(QUEUES), Tells(1, b"m")),
    (5, C, On(QueueDelete, Q), Refused(ErrObjectInUse)),
    (5, B, End(QUEUES), Refused(QueueTimeout)),
    (5, A, QueueGet(Q, 4, Pend), Waits),
    (5, C, On(QueueDelete, Q), Refused(ErrObjectInUse)),
    (5, A, Abandon(QUEUES), Done),
    (5, C, QueuePut(Q, b"left"), Done),
    (5, C, Active(Q), Gives(1)),
    (5, C, On(QueueDelete, Q), Done),
];

/// Its identifier is refused.
const STALE: [Row; 10] = [
    (5, C, Active(Q), Gives(0)),
    (5, C, On(QueueDelete, Q), Refused(ErrInvalidId)),
    (5, C, QueueCreate(b"q", 2, 4), Gives(R)),
    (5, C, QueueGet(R, 4, Check), Refused(QueueEmpty)),
    (5, C, QueueGet(Q, 4, Pend), Refused(ErrInvalidId)),
    (5, C, QueuePut(Q, b"m"), Refused(ErrInvalidId)),
    (5, C, On(QueueInfo, Q), Refused(ErrInvalidId)),
    (5, C, On(Hold, Q), Refused(ErrInvalidId)),
    (5, C, On(Release, Q), Refused(ErrInvalidId)),
    (5, C, Named(QueueFind, b"q"), Gives(R)),
];

#[test]
fn a_queue_stays_while_it_is_held_or_waited_for(rt: HostRuntime) -> Result<(), Fail> {
    follow(&rt, 64, 1, &[&HELD, &LET_GO, &STALE])
}
