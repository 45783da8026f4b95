//! What is copied, in a volume and from one to another.
use super::Answer::{Done, Gives, Is, Refused};
use super::Call::{CopyFromOther, CopyTo, Create, Free, Kind as Look, Mkdir, Read, Write};
use super::{Row, first_wrong, follow};
use osal_volume::{Kind, VolFault, Volume};
use std::process::Abort;
use std::test::Fail;

/// What may not be copied.
const NOT_COPIED: [Row; 12] = [
    (b"/v/a", Create, Done),
    (b"/v/a", Write(0, 700, b'a'), Gives(700)),
    (b"/v/d", Mkdir, Done),
    (b"/v/a", CopyTo(b"/v/a"), Refused(VolFault::WrongKind)),
    (b"/v/a", CopyTo(b"/v/d"), Refused(VolFault::WrongKind)),
    (b"/v/d", CopyTo(b"/v/x"), Refused(VolFault::WrongKind)),
    (b"/v/a", CopyTo(b"/v"), Refused(VolFault::WrongKind)),
    (b"/v/none", CopyTo(b"/v/d"), Refused(VolFault::NotFound)),
    (b"/v/d", CopyTo(b"/v/a/x"), Refused(VolFault::NotFound)),
    (b"/v/a", CopyTo(b"/v/b"), Refused(VolFault::NoSpace)),
    (b"/v/b", Look, Is(None)),
    (b"/v/a", Read(0, 1024, b'a'), Gives(700)),
];

#[test]
fn a_copy_that_is_refused_leaves_both_files(rt: HostRuntime) {
    assert_eq!(rt; follow(&rt, 4, &NOT_COPIED), None);
}

/// Copies in one volume.
const COPIED: [Row; 10] = [
    (b"/v/a", Create, Done),
    (b"/v/a", Write(0, 700, b'a'), Gives(700)),
    (b"/v/b", Create, Done),
    (b"/v/b", Write(0, 1000, b'b'), Gives(1000)),
    (b"/v/a", CopyTo(b"/v/b"), Done),
    (b"/v/b", Read(0, 1024, b'a'), Gives(700)),
    (b"/v/a", Write(0, 700, b'c'), Gives(700)),
    (b"/v/b", Read(0, 1024, b'a'), Gives(700)),
    (b"/v/a", Read(0, 1024, b'c'), Gives(700)),
    (b"/v", Free, Gives(0)),
];

#[test]
fn a_copy_takes_the_place_of_a_file_and_has_bytes_of_its_own(rt: HostRuntime) {
    assert_eq!(rt; follow(&rt, 4, &COPIED), None);
}

/// The other volume: two files and a directory.
const OTHER: [Row; 5] = [
    (b"/o/a", Create, Done),
    (b"/o/a", Write(0, 1024, b'a'), Gives(1024)),
    (b"/o/s", Create, Done),
    (b"/o/s", Write(0, 100, b's'), Gives(100)),
    (b"/o/d", Mkdir, Done),
];

// Follows the rows on a volume of so many blocks beside the other volume.
fn follow_beside<H: Abort + AllocGlobal>(rt: &H, rows: &[Row]) -> Option<usize> {
    let none = Volume::mkfs(rt.alloc(), 1).expect(rt, "there is memory");
    let mut other = Volume::mkfs(rt.alloc(), 4).expect(rt, "there is memory");
    let mut volume = Volume::mkfs(rt.alloc(), 2).expect(rt, "there is memory");
    let wrong = first_wrong(rt.alloc(), &mut other, &none, &OTHER);
    wrong.or(first_wrong(rt.alloc(), &mut volume, &other, rows))
}

/// A volume of two blocks, of which one is taken: a copy of two finds no room.
const FULL: [Row; 10] = [
    (b"/v/k", Create, Done),
    (b"/v/k", Write(0, 512, b'k'), Gives(512)),
    (b"/o/a", CopyFromOther(b"/v/a"), Refused(VolFault::NoSpace)),
    (b"/v/a", Look, Is(None)),
    (b"/v", Free, Gives(1)),
    (b"/v/k", Read(0, 1024, b'k'), Gives(512)),
    (b"/o/a", CopyFromOther(b"/v/k"), Done),
    (b"/v/k", Read(0, 1024, b'a'), Gives(1024)),
    (b"/o/s", CopyFromOther(b"/v/s"), Refused(VolFault::NoSpace)),
    (b"/v/k", Look, Is(Some(Kind::File(1024)))),
];

/// A shorter file in place of a longer one.
const SHORTER: [Row; 12] = [
    (b"/v/a", Create, Done),
    (b"/v/a", Write(0, 1024, b'z'), Gives(1024)),
    (b"/v", Free, Gives(0)),
    (b"/o/s", CopyFromOther(b"/v/a"), Done),
    (b"/v", Free, Gives(1)),
    (b"/v/a", Read(0, 1024, b's'), Gives(100)),
    (b"/o/a", CopyFromOther(b"/v/b"), Refused(VolFault::NoSpace)),
    (b"/o/s", CopyFromOther(b"/v/b"), Done),
    (b"/v/b", Read(0, 1024, b's'), Gives(100)),
    (
        b"/o/d",
        CopyFromOther(b"/v/b"),
        Refused(VolFault::WrongKind),
    ),
    (
        b"/o/none",
        CopyFromOther(b"/v/b"),
        Refused(VolFault::NotFound),
    ),
    (b"/o/s", CopyFromOther(b"/v"), Refused(VolFault::WrongKind)),
];

#[test]
fn a_file_of_another_volume_is_copied_where_there_is_room(rt: HostRuntime) {
    assert_eq!(rt; follow_beside(&rt, &FULL), None);
    assert_eq!(rt; follow_beside(&rt, &SHORTER), None);
}
