//! What lines on file systems, files and directories are read as, and why others are refused.
use crate::texts::{
    app_of, first_words, has_bodies, in_a_handler, is_wrong, line_at, may_not_have, reads_as,
    with_lines,
};
use osal_base::{Access, OpenFlags, Timeout, Whence};
use osal_call::{PathWord, PathsWord};
use osal_script::{App, ScriptCall};
use std::alloc::Global;
use std::process::Abort;
use std::test::Fail;

/// The lines of a body, each of them a call.
const LINES: [&str; 3] = [
    "mkfs \"/ramdev0\" \"RAM\" 64\nmount \"/ramdev0\" \"/m\"\nstat_volume \"/m\"\nunmount \"/m\"\nrmfs \"/ramdev0\" -> OS_SUCCESS",
    "open $f \"/m/a\" create rw\nwrite $f \"abc\"\nlseek $f -3 end\nread $f 3 check -> 3 \"abc\"\nclose $f\nstat \"/m/a\"\ncp \"/m/a\" \"/m/b\"\nrename \"/m/b\" \"/m/c\"\nremove \"/m/c\"",
    "mkdir \"/m/d\"\ndir_open $d \"/m/d\"\ndir_read $d\ndir_rewind $d\ndir_close $d\nrmdir \"/m/d\"",
];

#[test]
fn every_line_is_read(rt: HostRuntime) -> Result<(), Fail> {
    for lines in LINES {
        let wanted = first_words(rt.alloc(), lines)?;
        let same = reads_as(&rt, rt.alloc(), lines, wanted.as_slice())?;
        assert!(rt; same, "{lines}");
    }
    Ok(())
}

/// The application with this line in its body.
pub(crate) fn app_with(rt: &impl Abort, alloc: Global, line: &str) -> Result<App, Fail> {
    let text = with_lines(alloc, line)?;
    Ok(app_of(rt, alloc, text.as_slice()))
}

/// The call of the first line.
pub(crate) fn call_of(app: &App) -> Option<&ScriptCall> {
    let line = line_at(app.main().items(), 0)?;
    Some(&line.call)
}

/// Whether the first line opens the path `a` with these flags and this access.
fn opens(app: &App, wanted: OpenFlags, rights: Access) -> bool {
    match call_of(app) {
        Some(
            ScriptCall::Open {
                path,
                flags,
                access,
                ..
            },
        ) => path.as_slice() == b"a".as_slice() && *flags == wanted && *access == rights,
        _ => false,
    }
}

/// Openings, with their flags and access.
const OPENS: [(&str, OpenFlags, Access); 4] = [
    ("open $f \"a\" none ro", OpenFlags::Neither, Access::Ro),
    ("open $f \"a\" create wo", OpenFlags::Create, Access::Wo),
    ("open $f \"a\" truncate rw", OpenFlags::Truncate, Access::Rw),
    ("open $f \"a\" both ro", OpenFlags::Both, Access::Ro),
];

#[test]
fn an_opening_has_flags_and_an_access(rt: HostRuntime) -> Result<(), Fail> {
    for (line, flags, access) in OPENS {
        let app = app_with(&rt, rt.alloc(), line)?;
        assert!(rt; opens(&app, flags, access), "{line}");
    }
    Ok(())
}

/// Whether the first line seeks by this offset from there.
fn seeks(app: &App, far: i64, from: Whence) -> bool {
    match call_of(app) {
        Some(ScriptCall::Lseek { offset, whence, .. }) => *offset == far && *whence == from,
        _ => false,
    }
}

/// Seeks, with their offsets and from where they count.
const SEEKS: [(&str, i64, Whence); 7] = [
    ("lseek $f 0 set", 0, Whence::Set),
    ("lseek $f -0 end", 0, Whence::End),
    ("lseek $f -1 cur", -1, Whence::Cur),
    ("lseek $f 4294967295 set", 4294967295, Whence::Set),
    ("lseek $f -4294967295 end", -4294967295, Whence::End),
    ("lseek $f 0x10 cur", 16, Whence::Cur),
    ("lseek $f -0xfF cur", -255, Whence::Cur),
];

#[test]
fn an_offset_may_have_a_minus_sign(rt: HostRuntime) -> Result<(), Fail> {
    for (line, offset, whence) in SEEKS {
        let app = app_with(&rt, rt.alloc(), line)?;
        assert!(rt; seeks(&app, offset, whence), "{line}");
    }
    Ok(())
}

/// Whether the first line makes this volume.
fn makes(app: &App, wanted: &[u8], name: &[u8], count: u32) -> bool {
    match call_of(app) {
        Some(
            ScriptCall::Mkfs {
                device,
                label,
                blocks,
            },
        ) => device.as_slice() == wanted && label.as_slice() == name && *blocks == count,
        _ => false,
    }
}

#[test]
fn a_volume_has_a_device_a_label_and_blocks(rt: HostRuntime) -> Result<(), Fail> {
    let app = app_with(&rt, rt.alloc(), "mkfs \"d\" \"l\" 0xffffffff")?;
    assert!(rt; makes(&app, b"d", b"l", 4294967295));
    let unnamed = app_with(&rt, rt.alloc(), "mkfs \"\" \"\\x00\" 0")?;
    assert!(rt; makes(&unnamed, b"", b"\x00", 0));
    Ok(())
}

/// Whether a call goes from the path `a` to `b`.
fn goes_from_a_to_b(path: &[u8], to: &[u8]) -> bool {
    path == b"a".as_slice() && to == b"b".as_slice()
}

#[test]
fn the_first_of_two_paths_comes_first(rt: HostRuntime) -> Result<(), Fail> {
    let mounts = app_with(&rt, rt.alloc(), "mount \"a\" \"b\"")?;
    assert!(rt;
        matches!(call_of(&mounts), Some(ScriptCall::Paths { word: PathsWord::Mount, path, to })
            if goes_from_a_to_b(path.as_slice(), to.as_slice()))
    );
    let renames = app_with(&rt, rt.alloc(), "rename \"a\" \"b\"")?;
    assert!(rt;
        matches!(call_of(&renames), Some(ScriptCall::Paths { word: PathsWord::Rename, path, to })
            if goes_from_a_to_b(path.as_slice(), to.as_slice()))
    );
    let copies = app_with(&rt, rt.alloc(), "cp \"a\" \"b\"")?;
    assert!(rt;
        matches!(call_of(&copies), Some(ScriptCall::Paths { word: PathsWord::Cp, path, to })
            if goes_from_a_to_b(path.as_slice(), to.as_slice()))
    );
    Ok(())
}

#[test]
fn a_path_is_a_string(rt: HostRuntime) -> Result<(), Fail> {
    let app = app_with(&rt, rt.alloc(), "rmdir \"/a b/\\x00\" -> 0")?;
    assert!(rt;
        matches!(call_of(&app), Some(ScriptCall::Path { word: PathWord::Rmdir, path })
            if path.as_slice() == b"/a b/\x00".as_slice())
    );
    Ok(())
}

/// Whether the first line reads with this room and this wait.
fn reads(app: &App, room: u32, until: Timeout) -> bool {
    match call_of(app) {
        Some(ScriptCall::Read { n, wait, .. }) => *n == room && *wait == until,
        _ => false,
    }
}

/// Whether the first line writes this payload.
fn writes(app: &App, wanted: &[u8]) -> bool {
    match call_of(app) {
        Some(ScriptCall::Write { payload, .. }) => payload.as_slice() == wanted,
        _ => false,
    }
}

#[test]
fn bytes_are_read_into_a_room_and_written_as_a_payload(rt: HostRuntime) -> Result<(), Fail> {
    let some = app_with(&rt, rt.alloc(), "read $f 0x400 pend")?;
    assert!(rt; reads(&some, 1024, Timeout::Pend));
    let none = app_with(&rt, rt.alloc(), "read $f 0 7")?;
    assert!(rt; reads(&none, 0, Timeout::Ms(7)));
    let text = app_with(&rt, rt.alloc(), "write $f \"a\\x00\"")?;
    assert!(rt; writes(&text, b"a\x00"));
    let fill = app_with(&rt, rt.alloc(), "write $f fill 8192 1")?;
    assert!(rt; writes(&fill, &[1; 8192]));
    Ok(())
}

/// Lines of file systems with wrong arguments.
const WRONG_VOLUMES: [&str; 12] = [
    "mkfs \"d\" 64",
    "mkfs \"d\" \"l\"",
    "mkfs \"d\" \"l\" -1",
    "mkfs \"d\" \"l\" 4294967296",
    "mkfs d \"l\" 64",
    "mkfs $v \"d\" \"l\" 64",
    "mount \"d\"",
    "mount \"d\" \"/m\" \"/n\"",
    "unmount",
    "unmount \"/m\" \"/n\"",
    "rmfs d",
    "stat_volume $v",
];

#[test]
fn wrong_arguments_of_file_systems_are_refused(rt: HostRuntime) -> Result<(), Fail> {
    for line in WRONG_VOLUMES {
        let wrong = is_wrong(&rt, rt.alloc(), line)?;
        assert!(rt; wrong, "{line}");
    }
    Ok(())
}

/// Openings with wrong arguments.
const WRONG_OPENS: [&str; 10] = [
    "open \"a\" none ro",
    "open $f \"a\" none",
    "open $f \"a\" none ro 0",
    "open $f a none ro",
    "open $f \"a\" read ro",
    "open $f \"a\" None ro",
    "open $f \"a\" \"none\" ro",
    "open $f \"a\" none r",
    "open $f \"a\" none 0",
    "open $f \"a\" ro none",
];

#[test]
fn wrong_flags_and_accesses_are_refused(rt: HostRuntime) -> Result<(), Fail> {
    for line in WRONG_OPENS {
        let wrong = is_wrong(&rt, rt.alloc(), line)?;
        assert!(rt; wrong, "{line}");
    }
    Ok(())
}

/// Seeks with wrong arguments.
const WRONG_SEEKS: [&str; 10] = [
    "lseek $f 1",
    "lseek $f 1 set 1",
    "lseek $f set 1",
    "lseek $f - set",
    "lseek $f --1 set",
    "lseek $f +1 set",
    "lseek $f 4294967296 set",
    "lseek $f -4294967296 end",
    "lseek $f 0x set",
    "lseek $f 1 start",
];

#[test]
fn wrong_offsets_are_refused(rt: HostRuntime) -> Result<(), Fail> {
    for line in WRONG_SEEKS {
        let wrong = is_wrong(&rt, rt.alloc(), line)?;
        assert!(rt; wrong, "{line}");
    }
    Ok(())
}

/// Reads and writes with wrong arguments.
const WRONG_TRANSFERS: [&str; 9] = [
    "read $f 1",
    "read $f check",
    "read $f 1 0",
    "read $f -1 check",
    "read $f 4294967296 check",
    "write $f",
    "write $f a",
    "write \"a\"",
    "write $f fill 8193 0",
];

#[test]
fn wrong_reads_and_writes_are_refused(rt: HostRuntime) -> Result<(), Fail> {
    for line in WRONG_TRANSFERS {
        let wrong = is_wrong(&rt, rt.alloc(), line)?;
        assert!(rt; wrong, "{line}");
    }
    Ok(())
}

/// Lines of files and directories with wrong arguments.
const WRONG_PATHS: [&str; 12] = [
    "close \"a\"",
    "close $f 0",
    "remove \"a\" \"b\"",
    "rename \"a\"",
    "cp \"a\" $f",
    "cp \"a\" \"b\" \"c\"",
    "stat",
    "mkdir $d \"a\"",
    "dir_open \"a\"",
    "dir_open $d \"a\" \"b\"",
    "dir_read \"a\"",
    "dir_close",
];

#[test]
fn wrong_paths_are_refused(rt: HostRuntime) -> Result<(), Fail> {
    for line in WRONG_PATHS {
        let wrong = is_wrong(&rt, rt.alloc(), line)?;
        assert!(rt; wrong, "{line}");
    }
    Ok(())
}

#[test]
fn a_handler_does_not_wait_for_a_read(rt: HostRuntime) -> Result<(), Fail> {
    for line in ["read $f 8 pend", "read $f 8 1"] {
        let refused = may_not_have(&rt, rt.alloc(), line, "argument")?;
        assert!(rt; refused, "{line}");
    }
    Ok(())
}

#[test]
fn a_handler_makes_every_other_call_on_files(rt: HostRuntime) -> Result<(), Fail> {
    for lines in LINES {
        let text = in_a_handler(rt.alloc(), lines)?;
        assert!(rt; has_bodies(&rt, rt.alloc(), text.as_slice(), 2), "{lines}");
    }
    Ok(())
}
