//! What blocks answer, call by call.
ghost use Rattle.std.specs.Prelude.{◌≤◌, length};

use osal_base::Room;
use osal_blocks::{Blocks, blocks_for};
use std::process::Abort;
use std::test::Fail;

/// A call on the blocks, where a file is named by its number.
#[derive(Clone, Copy)]
enum Call {
    /// Writes so many bytes of one value from a place on.
    Write(u8, u32, usize, u8),
    /// Reads so many bytes from a place on, and counts those of one value.
    Read(u8, u32, u32, u8),
    Truncate(u8),
    Copy(u8, u8),
    /// Writes a byte to a file while a directory takes one more block.
    Crowd(u8),
    Length(u8),
    Free,
}

use Call::{Copy, Crowd, Free, Length, Read, Truncate, Write};

/// A call, and what it answers: a number of bytes, or of the free blocks.
type Row = (Call, u32);

fn count_of(bytes: &[u8], value: u8) -> u32
    requires { length bytes.now ≤ 1024 }
{
    bytes.iter().filter(|byte| **byte == value).count() as u32
}

fn write(blocks: &mut Blocks, file: u8, place: u32, count: usize, value: u8) -> u32 {
    let bytes = [value; 2048];
    blocks.write(usize::from(file), place, &bytes[..count.min(2048)])
}

fn read(blocks: &Blocks, file: u8, place: u32, count: u32, value: u8) -> u32 {
    let mut room = Room::new();
    blocks.read(usize::from(file), place, count.min(1024), &mut room);
    count_of(room.as_slice(), value)
}

fn copy(blocks: &mut Blocks, from: u8, to: u8) {
    let needed = blocks_for(blocks.length(usize::from(from)));
    if from != to && needed <= blocks.free() {
        blocks.copy(usize::from(from), usize::from(to));
    }
}

fn crowd(blocks: &mut Blocks, file: u8) -> u32 {
    if blocks.free() == 0 {
        return 0;
    }
    blocks.reserve();
    let written = blocks.write(usize::from(file), 0, b"c");
    blocks.unreserve();
    written
}

fn answer(blocks: &mut Blocks, call: Call) -> u32 {
    match call {
        Write(file, place, count, value) => return write(blocks, file, place, count, value),
        Read(file, place, count, value) => return read(blocks, file, place, count, value),
        Length(file) => return blocks.length(usize::from(file)),
        Truncate(file) => blocks.truncate(usize::from(file)),
        Copy(from, to) => copy(blocks, from, to),
        Crowd(file) => return crowd(blocks, file),
        Free => (),
    }
    blocks.free()
}

fn follow<H: Abort + AllocGlobal>(rt: &H, total: u32, rows: &[Row]) -> Result<(), Fail>
    requires some { 1 ≤ total }
    requires few { total ≤ 4096 }
{
    let mut blocks = Blocks::new(rt.alloc(), total)?;
    for (at, (call, want)) in rows.iter().enumerate() {
        assert!(rt; answer(&mut blocks, *call) == *want, "row {at}");
    }
    Ok(())
}

/// Two files share four blocks, and one of them grows onto the blocks that the other gave back.
const SHARED: [Row; 12] = [
    (Write(0, 0, 1500, b'a'), 1500),
    (Free, 1),
    (Write(1, 0, 512, b'b'), 512),
    (Free, 0),
    (Truncate(0), 3),
    (Write(1, 512, 1600, b'c'), 1536),
    (Free, 0),
    (Length(1), 2048),
    (Read(1, 0, 512, b'b'), 512),
    (Read(1, 512, 1024, b'c'), 1024),
    (Read(1, 1536, 1024, b'c'), 512),
    (Length(0), 0),
];

#[test]
fn a_write_takes_what_fits_and_a_truncate_gives_blocks_back(rt: HostRuntime) -> Result<(), Fail> {
    follow(&rt, 4, &SHARED)
}

/// A gap lies over blocks that another file wrote and gave back.
const GAP: [Row; 6] = [
    (Write(0, 0, 1024, b'a'), 1024),
    (Truncate(0), 2),
    (Write(1, 1000, 1, b'b'), 1),
    (Length(1), 1001),
    (Read(1, 0, 1024, 0), 1000),
    (Read(1, 1000, 1024, b'b'), 1),
];

#[test]
fn a_gap_reads_zeros_over_blocks_that_were_given_back(rt: HostRuntime) -> Result<(), Fail> {
    follow(&rt, 2, &GAP)
}

/// There is no block for the bytes behind the gap.
const TOO_FAR: [Row; 4] = [
    (Write(0, 600, 1, b'a'), 0),
    (Free, 1),
    (Length(0), 0),
    (Write(0, u32::MAX, 2, b'a'), 0),
];

#[test]
fn a_write_too_far_behind_the_end_writes_nothing(rt: HostRuntime) -> Result<(), Fail> {
    follow(&rt, 1, &TOO_FAR)
}

/// A copy stands on blocks of its own, and a directory's block holds no bytes.
const COPIED: [Row; 8] = [
    (Write(7, 0, 700, b'a'), 700),
    (Copy(7, 255), 1),
    (Write(7, 0, 700, b'b'), 700),
    (Read(255, 0, 1024, b'a'), 700),
    (Crowd(9), 0),
    (Crowd(7), 1),
    (Write(9, 0, 1, b'c'), 1),
    (Free, 0),
];

#[test]
fn a_copy_and_a_directory_have_blocks_of_their_own(rt: HostRuntime) -> Result<(), Fail> {
    follow(&rt, 5, &COPIED)
}

fn copied_from<H: Abort + AllocGlobal>(rt: &H) -> Result<u32, Fail> {
    let mut from = Blocks::new(rt.alloc(), 4)?;
    let mut to = Blocks::new(rt.alloc(), 2)?;
    write(&mut from, 3, 0, 600, b'a');
    let needed = blocks_for(from.length(3));
    if needed <= to.free() {
        to.copy_from(&from, 3, 5);
    }
    Ok(read(&to, 5, 0, 1024, b'a'))
}

#[test]
fn a_file_is_copied_from_other_blocks(rt: HostRuntime) -> Result<(), Fail> {
    let found = copied_from(&rt)?;
    assert_eq!(rt; found, 600);
    Ok(())
}
