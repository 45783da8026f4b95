//! Shelves and sinks, in memory and of the host.
use osal_base::Bytes;
use osal_outside::{
    HostShelf, HostSink, MemShelf, MemSink, Opened, ReadFailed, Shelf, Sink, WriteFailed, send_all,
};
use std::alloc::Global;
use std::fs;
use std::process::Abort;
use std::test::Fail;

/// A call of a shelf, and how it goes.
#[derive(Clone, Copy)]
enum Row {
    Open(&'static str, Opened),
    /// So many bytes are read, the last of which is this one.
    Read(usize, u8),
    /// The file has no more bytes, or no file is open.
    Ends,
    Fails,
}

use Row::{Ends, Fails, Open, Read};

fn reads(found: Result<usize, ReadFailed>, buf: &[u8], count: usize, last: u8) -> bool {
    found == Ok(count) && count > 0 && buf.get(count - 1) == Some(&last)
}

// Whether the shelf answers a row so.
fn answers<S: Shelf>(alloc: Global, shelf: &mut S, buf: &mut [u8; 16], row: Row) -> bool {
    match row {
        Open(name, want) => shelf.open(alloc, name) == Ok(want),
        Read(count, last) => {
            let found = shelf.read(buf);
            reads(found, buf, count, last)
        }
        Ends => shelf.read(buf) == Ok(0),
        Fails => shelf.read(buf) == Err(ReadFailed),
    }
}

fn follow<S: Shelf>(rt: &impl Abort, alloc: Global, shelf: &mut S, rows: &[Row]) {
    let mut buf = [0; 16];
    for (at, row) in rows.iter().enumerate() {
        assert!(rt; answers(alloc, shelf, &mut buf, *row), "row {at}");
    }
}

fn ten_digits(alloc: Global) -> Result<(String, Bytes), Fail> {
    let name = String::from_str(alloc, "app")?;
    let bytes = Bytes::copy(alloc, b"0123456789")?;
    Ok((name, bytes))
}

/// Follows the rows on a shelf with one file of ten bytes, read four at a time, and tells how often it failed.
fn faults_of<H: Abort + AllocGlobal>(rt: &H, fails: &[u64], rows: &[Row]) -> Result<u64, Fail> {
    let fails = fails.to_vec(rt.alloc())?;
    let files = vec![in rt.alloc(); ten_digits(rt.alloc())?]?;
    assert!(rt; !MemShelf::has_twins(&files));
    let mut shelf = MemShelf::new(files, 4, fails);
    follow(rt, rt.alloc(), &mut shelf, rows);
    Ok(shelf.faults())
}

const GRAINS: [Row; 6] = [
    Ends,
    Open("app", Opened::Ready),
    Read(4, b'3'),
    Read(4, b'7'),
    Read(2, b'9'),
    Ends,
];

#[test]
fn a_file_in_memory_is_read_in_grains(rt: HostRuntime) -> Result<(), Fail> {
    let faults = faults_of(&rt, &[], &GRAINS)?;
    assert!(rt; faults == 0);
    Ok(())
}

const PLANNED: [Row; 6] = [
    Open("app", Opened::Ready),
    Read(4, b'3'),
    Fails,
    Read(4, b'7'),
    Read(2, b'9'),
    Ends,
];

#[test]
fn a_planned_read_fails_and_moves_nothing(rt: HostRuntime) -> Result<(), Fail> {
    let faults = faults_of(&rt, &[3], &PLANNED)?;
    assert!(rt; faults == 1);
    Ok(())
}

const MISSING: [Row; 1] = [Open("ap", Opened::NotFound)];

const MISSING_AND_FAILED: [Row; 4] = [
    Open("ap", Opened::NotFound),
    Open("app", Opened::Ready),
    Open("app", Opened::Failed),
    Ends,
];

#[test]
fn a_missing_name_is_no_fault(rt: HostRuntime) -> Result<(), Fail> {
    let missing = faults_of(&rt, &[1, 3], &MISSING)?;
    let failed = faults_of(&rt, &[1, 3], &MISSING_AND_FAILED)?;
    assert!(rt; missing == 0);
    assert!(rt; failed == 1);
    Ok(())
}

/// Whether a sink has that many faults, and these bytes in it.
fn holds(sink: &MemSink, written: &[u8], faults: u64) -> bool {
    sink.written() == written && sink.faults() == faults
}

/// Whether the sink fails to take these bytes, and keeps so many of them.
fn keeps(sink: &mut MemSink, bytes: &[u8], kept: usize) -> bool {
    send_all(sink, bytes) == Err(WriteFailed) && bytes.get(..kept) == Some(sink.written())
}

#[test]
fn a_sink_keeps_what_came_before_its_fault(rt: HostRuntime) -> Result<(), Fail> {
    let bytes = b"abcdefghijklmnopqrstuvwxyz0123";
    for (room, fails, kept) in [(30, 3, 16), (10, 9, 10), (20, 9, 20)] {
        let mut sink = MemSink::new(rt.alloc(), room, 8, vec![in rt.alloc(); fails]?)?;
        assert!(rt; keeps(&mut sink, bytes, kept));
        assert!(rt; sink.faults() == 1);
    }
    Ok(())
}

/// Whether the sink takes these bytes, and its next call alone fails, the fourth.
fn takes_all(sink: &mut MemSink, bytes: &[u8]) -> bool {
    send_all(sink, bytes).is_ok() && sink.flush() == Err(WriteFailed) && sink.flush().is_ok()
}

#[test]
fn a_sink_with_room_takes_all(rt: HostRuntime) -> Result<(), Fail> {
    let mut sink = MemSink::new(rt.alloc(), 5, 2, vec![in rt.alloc(); 4]?)?;
    assert!(rt; takes_all(&mut sink, b"hello"));
    assert!(rt; holds(&sink, b"hello", 1));
    Ok(())
}

const HOST_FILE: [Row; 4] = [Ends, Open("app", Opened::Ready), Read(10, b'9'), Ends];

#[test]
fn a_file_of_the_host_is_read_to_its_end(rt: HostRuntime) -> Result<(), Fail> {
    fs::write(&rt, "app", "0123456789")?;
    let mut shelf = HostShelf::new(&rt);
    follow(&rt, rt.alloc(), &mut shelf, &HOST_FILE);
    assert!(rt; shelf.faults() == 0);
    follow(
        &rt,
        rt.alloc(),
        &mut shelf,
        &[Open("missing", Opened::Failed), Ends],
    );
    assert!(rt; shelf.faults() == 1);
    Ok(())
}

#[test]
fn standard_output_takes_bytes(rt: HostRuntime) {
    let mut sink = HostSink::new(&rt);
    assert!(rt; send_all(&mut sink, b"hello\n").is_ok());
    assert!(rt; sink.flush().is_ok());
    assert!(rt; sink.faults() == 0);
}
