//! Where a path leads, while file systems are mounted and taken out.
use osal_base::{Name, OsalId, Status};
use osal_path::MountMap;
use std::process::Abort;
use std::test::Fail;

#[derive(Clone, Copy)]
enum Call {
    // A mount of one letter, with the number of its file system.
    Add(u8, u32),
    Remove(u8),
    Find(u8),
    Resolve(&'static [u8]),
    Count,
}

use Call::{Add, Count, Find, Remove, Resolve};

#[derive(Clone, Copy, PartialEq, Eq)]
enum Answer {
    Gives(u32),
    Nothing,
    // A file system, and how many names there are below its mount.
    Leads(u32, usize),
    Refused(Status),
}

use Answer::{Gives, Leads, Nothing, Refused};

fn of_option(id: Option<OsalId>) -> Answer {
    match id {
        Some(id) => Gives(id.raw()),
        None => Nothing,
    }
}

// A name of one byte, which is not 0.
fn name_of(letter: u8) -> Option<Name> {
    Name::new(&[letter]).ok()
}

// Adds a mount where its name is new and there is room.
fn add(mounts: &mut MountMap, letter: u8, id: u32) -> Answer {
    let Some(name) = name_of(letter) else {
        return Nothing;
    };
    if mounts.find(&name).is_some() || mounts.len() >= 1024 {
        return Nothing;
    }
    mounts.add(name, OsalId::of_raw(id));
    Gives(mounts.len())
}

fn remove(mounts: &mut MountMap, letter: u8) -> Answer {
    match name_of(letter) {
        Some(name) => of_option(mounts.remove(&name)),
        None => Nothing,
    }
}

fn find(mounts: &MountMap, letter: u8) -> Answer {
    match name_of(letter) {
        Some(name) => of_option(mounts.find(&name)),
        None => Nothing,
    }
}

fn resolve(mounts: &MountMap, path: &[u8]) -> Answer {
    match mounts.resolve(path) {
        Ok((id, trail)) => Leads(id.raw(), trail.names().len()),
        Err(status) => Refused(status),
    }
}

fn carry_out(mounts: &mut MountMap, call: Call) -> Answer {
    match call {
        Add(letter, id) => add(mounts, letter, id),
        Remove(letter) => remove(mounts, letter),
        Find(letter) => find(mounts, letter),
        Resolve(path) => resolve(mounts, path),
        Count => Gives(mounts.len()),
    }
}

type Row = (Call, Answer);

// Follows the rows in an empty map, and says at which one it answers otherwise.
fn follow<H: Abort + AllocGlobal>(rt: &H, rows: &[Row]) -> Option<usize> {
    let mut mounts = MountMap::new(rt.alloc()).expect(rt, "there is memory");
    for (at, row) in rows.iter().enumerate() {
        if carry_out(&mut mounts, row.0) != row.1 {
            return Some(at);
        }
    }
    None
}

/// Mounts that come and go.
const COURSE: [Row; 12] = [
    (Resolve(b"/a"), Refused(Status::FsErrPathInvalid)),
    (Remove(b'a'), Nothing),
    (Add(b'a', 7), Gives(1)),
    (Add(b'b', 8), Gives(2)),
    (Add(b'c', 9), Gives(3)),
    (Find(b'b'), Gives(8)),
    (Remove(b'b'), Gives(8)),
    (Remove(b'b'), Nothing),
    (Find(b'b'), Nothing),
    (Find(b'c'), Gives(9)),
    (Add(b'b', 10), Gives(3)),
    (Count, Gives(3)),
];

#[test]
fn mounts_come_and_go(rt: HostRuntime) {
    assert_eq!(rt; follow(&rt, &COURSE), None);
}

/// Paths, while two file systems are mounted.
const PATHS: [Row; 11] = [
    (Add(b'a', 7), Gives(1)),
    (Add(b'b', 8), Gives(2)),
    (Resolve(b"/a"), Leads(7, 0)),
    (Resolve(b"/b/x"), Leads(8, 1)),
    (Resolve(b"/b/a/b"), Leads(8, 2)),
    (Resolve(b"/ab/x"), Refused(Status::FsErrPathInvalid)),
    (Resolve(b"/x/a"), Refused(Status::FsErrPathInvalid)),
    (Resolve(b"a/x"), Refused(Status::FsErrPathInvalid)),
    (Resolve(b"/a/"), Refused(Status::FsErrPathInvalid)),
    (
        Resolve(b"/x/a-name-of-20-bytes--"),
        Refused(Status::FsErrNameTooLong),
    ),
    (
        Resolve(b"/a/nineteen-bytes-long/nineteen-bytes-long/nineteen-bytes-long/x"),
        Refused(Status::FsErrPathTooLong),
    ),
];

#[test]
fn a_path_leads_to_the_file_system_of_its_mount(rt: HostRuntime) {
    assert_eq!(rt; follow(&rt, &PATHS), None);
}

// Whether the path leads to a name below its mount.
fn leads_to(mounts: &MountMap, path: &[u8], name: &[u8]) -> bool {
    match mounts.resolve(path) {
        Ok((_, trail)) => trail.names().len() == 1 && trail.names()[0].as_slice() == name,
        Err(_) => false,
    }
}

#[test]
fn the_mount_is_no_name_of_the_trail(rt: HostRuntime) {
    let mut mounts = MountMap::new(rt.alloc()).expect(&rt, "there is memory");
    assert!(rt; add(&mut mounts, b'a', 7) == Gives(1));
    assert!(rt; leads_to(&mounts, b"/a/log", b"log"));
}
