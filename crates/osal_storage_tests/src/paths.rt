//! What a path is split into, and why it is refused.
use osal_base::Status;
use osal_path::split;
use std::test::Fail;

// Whether a path has these names, one in each line.
fn has_names(path: &[u8], lines: &[u8]) -> bool {
    let Ok(trail) = split(path) else {
        return false;
    };
    let mut wanted = lines.split(|b| *b == b'\n');
    for name in trail.names() {
        if wanted.next() != Some(name.as_slice()) {
            return false;
        }
    }
    wanted.next().is_none()
}

/// Paths, and their names.
const NAMES: [(&[u8], &[u8]); 9] = [
    (b"/a", b"a"),
    (b"/ram/log", b"ram\nlog"),
    (b"/ram/d/b", b"ram\nd\nb"),
    (b"/.../.a", b"...\n.a"),
    (b"/a b/\xff\x01", b"a b\n\xff\x01"),
    (b"/nineteen-bytes-long", b"nineteen-bytes-long"),
    (b"/nineteen-bytes-long/a", b"nineteen-bytes-long\na"),
    (b"/ram/nineteen-bytes-long", b"ram\nnineteen-bytes-long"),
    (
        b"/nineteen-bytes-long/nineteen-bytes-long/nineteen-bytes-long/63",
        b"nineteen-bytes-long\nnineteen-bytes-long\nnineteen-bytes-long\n63",
    ),
];

#[test]
fn a_path_is_split_into_its_names(rt: HostRuntime) {
    for (row, (path, names)) in NAMES.iter().enumerate() {
        assert!(rt; has_names(*path, *names), "row {row}");
    }
}

// How many names a path has, and none where it is refused.
fn count_names(path: &[u8]) -> usize {
    match split(path) {
        Ok(trail) => trail.names().len(),
        Err(_) => 0,
    }
}

#[test]
fn a_path_has_at_most_31_names(rt: HostRuntime) {
    let most = b"/a/b/c/d/e/f/g/h/i/j/k/l/m/n/o/p/q/r/s/t/u/v/w/x/y/z/0/1/2/3/4";
    let longest = b"/a/b/c/d/e/f/g/h/i/j/k/l/m/n/o/p/q/r/s/t/u/v/w/x/y/z/0/1/2/3/45";
    assert_eq!(rt; count_names(most), 31);
    assert_eq!(rt; count_names(longest), 31);
}

// Whether a path is refused with that status.
fn is_refused(path: &[u8], status: Status) -> bool {
    split(path).err() == Some(status)
}

/// Paths that are too long, and paths whose last name is.
const TOO_LONG: [(&[u8], Status); 7] = [
    (
        b"/nineteen-bytes-long/nineteen-bytes-long/nineteen-bytes-long/64b",
        Status::FsErrPathTooLong,
    ),
    (
        b"no-slash-in-64-bytes-------------------------------------------x",
        Status::FsErrPathTooLong,
    ),
    (
        b"/a/b/c/d/e/f/g/h/i/j/k/l/m/n/o/p/q/r/s/t/u/v/w/x/y/z/0/1/2/3/4/5",
        Status::FsErrPathTooLong,
    ),
    (b"/a-name-of-20-bytes--", Status::FsErrNameTooLong),
    (b"/ram/a-name-of-20-bytes--", Status::FsErrNameTooLong),
    (b"ram//a-name-of-20-bytes--", Status::FsErrNameTooLong),
    (b"/../a-name-of-20-bytes-\0", Status::FsErrNameTooLong),
];

#[test]
fn a_path_or_a_last_name_is_too_long(rt: HostRuntime) {
    for (row, (path, status)) in TOO_LONG.iter().enumerate() {
        assert!(rt; is_refused(*path, *status), "row {row}");
    }
}

/// Paths with parts that may not be: too few, none, dots, too long in the middle, a zero byte.
const INVALID: [&[u8]; 12] = [
    b"",
    b"a-name-of-20-bytes--",
    b"ram/x",
    b"/",
    b"//a",
    b"/a//b",
    b"/a/",
    b"/.",
    b"/a/../b",
    b"/a-name-of-20-bytes--/b",
    b"/a\0b",
    b"/\0/b",
];

#[test]
fn a_part_that_names_nothing_refuses_a_path(rt: HostRuntime) {
    for (row, path) in INVALID.iter().enumerate() {
        assert!(rt; is_refused(*path, Status::FsErrPathInvalid), "row {row}");
    }
}
