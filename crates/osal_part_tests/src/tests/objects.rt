//! What holds of objects of every kind: of their names, and of those that are held.
use super::fixture::Ask::{self, Active, Named, On, QueueCreate, TaskCreate, Valued};
use super::fixture::Want::{Done, Gives, Refused};
use super::fixture::{A, B, LONG, NINETEEN, follow};
use osal_base::Status::{
    ErrIncorrectObjState, ErrInvalidArgument, ErrInvalidId, ErrNameNotFound, ErrNameTaken,
    ErrNameTooLong, ErrNoFreeIds, ErrObjectInUse,
};
use osal_call::NameWord::{
    BinSemFind, CondvarCreate, CondvarFind, CountSemFind, MutSemCreate, MutSemFind, QueueFind,
    TaskFind, TimebaseCreate, TimebaseFind,
};
use osal_call::ObjectWord::{
    BinSemDelete, CondvarDelete, CountSemDelete, Hold, MutSemDelete, QueueDelete, Release,
    TimebaseDelete,
};
use osal_call::ValueWord::{BinSemCreate, CountSemCreate};
use osal_call::{NameWord, ObjectWord, ValueWord};
use std::test::Fail;

/// How an object is made under a name.
#[derive(Clone, Copy)]
enum Maker {
    Task,
    Queue,
    Plain(NameWord),
    WithValue(ValueWord),
}

// The create of an object with this name.
fn create(maker: Maker, name: &'static [u8]) -> Ask {
    match maker {
        Maker::Task => TaskCreate(name, 0, 0),
        Maker::Queue => QueueCreate(name, 1, 1),
        Maker::Plain(word) => Named(word, name),
        Maker::WithValue(word) => Valued(word, name, 0),
    }
}

/// Each kind of objects with names: how one is made and found, and its first identifier.
const NAMED: [(Maker, NameWord, u32); 7] = [
    (Maker::Task, TaskFind, 0x0001_0001),
    (Maker::Queue, QueueFind, 0x0002_0001),
    (Maker::WithValue(CountSemCreate), CountSemFind, 0x0003_0001),
    (Maker::WithValue(BinSemCreate), BinSemFind, 0x0004_0001),
    (Maker::Plain(MutSemCreate), MutSemFind, 0x0005_0001),
    (Maker::Plain(TimebaseCreate), TimebaseFind, 0x0008_0001),
    (Maker::Plain(CondvarCreate), CondvarFind, 0x000D_0001),
];

#[test]
fn a_name_has_1_to_19_bytes_and_no_byte_0(rt: HostRuntime) -> Result<(), Fail> {
    for (maker, find, _) in NAMED {
        let rows = [
            (0, A, create(maker, b""), Refused(ErrInvalidArgument)),
            (0, A, create(maker, LONG), Refused(ErrNameTooLong)),
            (0, A, create(maker, b"a\0"), Refused(ErrInvalidArgument)),
            (0, A, Named(find, b""), Refused(ErrInvalidArgument)),
            (0, A, Named(find, LONG), Refused(ErrNameTooLong)),
            (0, A, Named(find, b"\0"), Refused(ErrInvalidArgument)),
        ];
        follow(&rt, 2, 2, &[&rows])?;
    }
    Ok(())
}

#[test]
fn a_name_is_of_one_object_and_a_table_may_be_full(rt: HostRuntime) -> Result<(), Fail> {
    for (maker, find, first) in NAMED {
        let rows = [
            (0, A, create(maker, b"a"), Gives(first)),
            (0, B, create(maker, b"a"), Refused(ErrNameTaken)),
            (0, B, create(maker, NINETEEN), Gives(first + 1)),
            (0, A, create(maker, b"a"), Refused(ErrNameTaken)),
            (0, A, create(maker, b"b"), Refused(ErrNoFreeIds)),
            (0, B, Named(find, NINETEEN), Gives(first + 1)),
            (0, B, Named(find, b"a"), Gives(first)),
            (0, B, Named(find, b"b"), Refused(ErrNameNotFound)),
        ];
        follow(&rt, 2, 2, &[&rows])?;
    }
    Ok(())
}

/// Each kind of objects that a delete removes at once: how one is made and deleted, and its first identifier.
const DELETED: [(Maker, ObjectWord, u32); 6] = [
    (Maker::Queue, QueueDelete, 0x0002_0001),
    (
        Maker::WithValue(CountSemCreate),
        CountSemDelete,
        0x0003_0001,
    ),
    (Maker::WithValue(BinSemCreate), BinSemDelete, 0x0004_0001),
    (Maker::Plain(MutSemCreate), MutSemDelete, 0x0005_0001),
    (Maker::Plain(TimebaseCreate), TimebaseDelete, 0x0008_0001),
    (Maker::Plain(CondvarCreate), CondvarDelete, 0x000D_0001),
];

#[test]
fn a_held_object_is_not_deleted(rt: HostRuntime) -> Result<(), Fail> {
    for (maker, delete, id) in DELETED {
        let rows = [
            (0, A, On(Hold, id), Refused(ErrInvalidId)),
            (0, A, create(maker, b"a"), Gives(id)),
            (0, A, On(Release, id), Refused(ErrIncorrectObjState)),
            (0, A, On(Hold, id), Done),
            (0, B, On(delete, id), Refused(ErrObjectInUse)),
            (0, B, On(Release, id), Done),
            (0, B, On(Release, id), Refused(ErrIncorrectObjState)),
            (0, B, Active(id), Gives(1)),
            (0, B, On(delete, id), Done),
        ];
        follow(&rt, 2, 2, &[&rows])?;
    }
    Ok(())
}

#[test]
fn the_identifier_of_a_deleted_object_is_refused(rt: HostRuntime) -> Result<(), Fail> {
    for (maker, delete, id) in DELETED {
        let rows = [
            (0, A, create(maker, b"a"), Gives(id)),
            (0, A, On(delete, id + 1), Refused(ErrInvalidId)),
            (0, A, On(delete, id), Done),
            (0, A, Active(id), Gives(0)),
            (0, A, create(maker, b"a"), Gives(id + 1)),
            (0, A, On(delete, id), Refused(ErrInvalidId)),
            (0, A, On(Hold, id), Refused(ErrInvalidId)),
            (0, A, On(Release, id), Refused(ErrInvalidId)),
        ];
        follow(&rt, 2, 2, &[&rows])?;
    }
    Ok(())
}
