//! Which files and directories may be made, moved, listed and removed.
use super::Answer::{Done, Gives, Is, Refused};
use super::Call::{
    Create, CreateMany, Free, Kind as Look, List, Mkdir, Read, Remove, RenameTo, Rmdir, Truncate,
    Write,
};
use super::{Row, follow};
use osal_volume::{Kind, VolFault};
use std::test::Fail;

/// 256 files and directories, which is the most.
const MOST: [Row; 10] = [
    (b"/v/d", Mkdir, Done),
    (b"/v", CreateMany(300), Gives(255)),
    (b"/v/z", Create, Refused(VolFault::NoSpace)),
    (b"/v/d/z", Create, Refused(VolFault::NoSpace)),
    (b"/v/z", Mkdir, Refused(VolFault::NoSpace)),
    (b"/v/aa", Create, Refused(VolFault::Exists)),
    (b"/v/pn", Remove, Done),
    (b"/v/d/z", Create, Done),
    (b"/v/pn", Create, Refused(VolFault::NoSpace)),
    (b"/v", Free, Gives(1)),
];

#[test]
fn a_volume_has_at_most_256_nodes_below_its_root(rt: HostRuntime) {
    assert_eq!(rt; follow(&rt, 2, &MOST), None);
}

/// A directory takes a block, and a file without bytes none.
const BLOCKS: [Row; 8] = [
    (b"/v/d", Mkdir, Done),
    (b"/v", Free, Gives(0)),
    (b"/v/e", Mkdir, Refused(VolFault::NoSpace)),
    (b"/v/d/e", Create, Done),
    (b"/v/d/e", Write(0, 1, b'e'), Refused(VolFault::NoSpace)),
    (b"/v/d/e", Remove, Done),
    (b"/v/d", Rmdir, Done),
    (b"/v", Free, Gives(1)),
];

#[test]
fn a_directory_takes_a_block(rt: HostRuntime) {
    assert_eq!(rt; follow(&rt, 1, &BLOCKS), None);
}

/// A directory is moved with all that lies below it.
const MOVED: [Row; 12] = [
    (b"/v/d", Mkdir, Done),
    (b"/v/d/e", Mkdir, Done),
    (b"/v/d/e/f", Create, Done),
    (b"/v/d/e/f", Write(0, 5, b'f'), Gives(5)),
    (b"/v/x", Mkdir, Done),
    (b"/v/d", RenameTo(b"/v/x/y"), Done),
    (b"/v/x/y/e/f", Read(0, 1024, b'f'), Gives(5)),
    (b"/v/d", Look, Is(None)),
    (b"/v/d/e/f", Look, Is(None)),
    (b"/v", List(b"x\n"), Done),
    (b"/v/x/y/e/f", RenameTo(b"/v/f"), Done),
    (b"/v", List(b"f\nx\n"), Done),
];

#[test]
fn a_rename_moves_all_that_lies_below(rt: HostRuntime) {
    assert_eq!(rt; follow(&rt, 8, &MOVED), None);
}

/// What may not be moved.
const NOT_MOVED: [Row; 12] = [
    (b"/v/d", Mkdir, Done),
    (b"/v/da", Create, Done),
    (b"/v/d", RenameTo(b"/v/d/x"), Refused(VolFault::WrongKind)),
    (b"/v/d", RenameTo(b"/v/da"), Refused(VolFault::Exists)),
    (b"/v/d", RenameTo(b"/v/d"), Refused(VolFault::Exists)),
    (b"/v/da", RenameTo(b"/v/d"), Refused(VolFault::Exists)),
    (b"/v/none", RenameTo(b"/v/d/x"), Refused(VolFault::NotFound)),
    (b"/v/d", RenameTo(b"/v/none/x"), Refused(VolFault::NotFound)),
    (b"/v/d", RenameTo(b"/v/da/x"), Refused(VolFault::NotFound)),
    (b"/v/none", RenameTo(b"/v"), Refused(VolFault::NotFound)),
    (b"/v", List(b"d\nda\n"), Done),
    (b"/v/d", List(b""), Done),
];

#[test]
fn a_node_is_not_moved_below_itself_or_onto_another(rt: HostRuntime) {
    assert_eq!(rt; follow(&rt, 8, &NOT_MOVED), None);
}

/// The root is there for ever, and in its place.
const ROOT: [Row; 12] = [
    (b"/v", Look, Is(Some(Kind::Dir))),
    (b"/v", Create, Refused(VolFault::Exists)),
    (b"/v", Mkdir, Refused(VolFault::Exists)),
    (b"/v", Remove, Refused(VolFault::WrongKind)),
    (b"/v", Rmdir, Refused(VolFault::WrongKind)),
    (b"/v", Truncate, Refused(VolFault::WrongKind)),
    (b"/v", RenameTo(b"/v/x"), Refused(VolFault::WrongKind)),
    (b"/v/d", Mkdir, Done),
    (b"/v/d", RenameTo(b"/v"), Refused(VolFault::WrongKind)),
    (b"/v", RenameTo(b"/v"), Refused(VolFault::WrongKind)),
    (b"/v", Write(0, 1, b'a'), Refused(VolFault::WrongKind)),
    (b"/v", Read(0, 1, b'a'), Refused(VolFault::WrongKind)),
];

#[test]
fn the_root_is_not_made_removed_or_renamed(rt: HostRuntime) {
    assert_eq!(rt; follow(&rt, 8, &ROOT), None);
}

/// Files where directories are wanted, and directories where files are.
const KINDS: [Row; 12] = [
    (b"/v/d", Mkdir, Done),
    (b"/v/f", Create, Done),
    (b"/v/d", Remove, Refused(VolFault::WrongKind)),
    (b"/v/d", Truncate, Refused(VolFault::WrongKind)),
    (b"/v/f", Rmdir, Refused(VolFault::WrongKind)),
    (b"/v/f", List(b""), Refused(VolFault::WrongKind)),
    (b"/v/f/x", Create, Refused(VolFault::NotFound)),
    (b"/v/f/x", Mkdir, Refused(VolFault::NotFound)),
    (b"/v/none/x", Create, Refused(VolFault::NotFound)),
    (b"/v/none", Remove, Refused(VolFault::NotFound)),
    (b"/v/none", Rmdir, Refused(VolFault::NotFound)),
    (b"/v/none", List(b""), Refused(VolFault::NotFound)),
];

/// A directory in which something stands.
const FILLED: [Row; 7] = [
    (b"/v/d", Mkdir, Done),
    (b"/v/d/f", Create, Done),
    (b"/v/d", Rmdir, Refused(VolFault::NotEmpty)),
    (b"/v/d/f", Look, Is(Some(Kind::File(0)))),
    (b"/v/d/f", Remove, Done),
    (b"/v/d", Rmdir, Done),
    (b"/v/d", Look, Is(None)),
];

#[test]
fn files_and_directories_are_removed_by_their_own_calls(rt: HostRuntime) {
    assert_eq!(rt; follow(&rt, 8, &KINDS), None);
    assert_eq!(rt; follow(&rt, 8, &FILLED), None);
}

/// Names whose bytes are in another order than the calls that made them.
const NAMES: [Row; 9] = [
    (b"/v/b", Create, Done),
    (b"/v/ab", Mkdir, Done),
    (b"/v/\xff", Create, Done),
    (b"/v/a", Create, Done),
    (b"/v/B", Create, Done),
    (b"/v/ab/a", Create, Done),
    (b"/v/10", Create, Done),
    (b"/v/9", Create, Done),
    (b"/v", List(b"10\n9\nB\na\nab\nb\n\xff\n"), Done),
];

#[test]
fn names_are_listed_in_the_order_of_their_bytes(rt: HostRuntime) {
    assert_eq!(rt; follow(&rt, 8, &NAMES), None);
}
