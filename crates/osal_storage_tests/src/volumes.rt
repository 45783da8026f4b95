//! What volumes answer, call by call.
ghost use Rattle.std.specs.Prelude.{◌≤◌};

mod copies;
mod nodes;
mod space;

use osal_base::{Name, Room};
use osal_path::split;
use osal_volume::{Kind, VolFault, Volume};
use std::alloc::Global;
use std::process::Abort;

/// A path below the volume, for which its first name stands: that name alone is the root's path.
type Path = &'static [u8];

/// A call on a path.
#[derive(Clone, Copy)]
enum Call {
    Create,
    /// Creates so many files in the root, named by two letters from `aa` on.
    CreateMany(u16),
    Mkdir,
    /// Writes so many bytes of one value from a place on.
    Write(u32, usize, u8),
    /// Reads at most so many bytes from a place on, which all are of one value.
    Read(u32, u32, u8),
    Truncate,
    Remove,
    Rmdir,
    RenameTo(Path),
    CopyTo(Path),
    /// Copies from the other volume to a path in this one.
    CopyFromOther(Path),
    /// Lists the names, each with a line end behind it.
    List(&'static [u8]),
    Kind,
    Free,
}

#[derive(Clone, Copy, PartialEq, Eq)]
enum Answer {
    Done,
    Gives(u32),
    Is(Option<Kind>),
    Refused(VolFault),
    /// Other bytes or other names than those of the row.
    Differs,
}

/// A call on a path, and what it answers.
type Row = (Path, Call, Answer);

fn of_unit(answer: Result<(), VolFault>) -> Answer {
    match answer {
        Ok(()) => Answer::Done,
        Err(fault) => Answer::Refused(fault),
    }
}

fn of_count(answer: Result<u32, VolFault>) -> Answer {
    match answer {
        Ok(count) => Answer::Gives(count),
        Err(fault) => Answer::Refused(fault),
    }
}

// A name of two letters; 400 numbers give 400 names.
fn name_of(number: u16) -> Option<Name> {
    let first = b'a' + (number / 16).min(24) as u8;
    let second = b'a' + (number % 16) as u8;
    Name::new(&[first, second]).ok()
}

fn create_many(volume: &mut Volume, count: u16) -> u32 {
    let mut made: u32 = 0;
    for number in 0..count {
        if let Some(name) = name_of(number) {
            if volume.create(&[name]).is_ok() {
                made = made.saturating_add(1);
            }
        }
    }
    made
}

fn write(volume: &mut Volume, at: &[Name], place: u32, count: usize, value: u8) -> Answer {
    let bytes = [value; 4096];
    of_count(volume.write(at, place, &bytes[..count.max(1).min(4096)]))
}

fn read(volume: &Volume, at: &[Name], place: u32, count: u32, value: u8) -> Answer {
    let mut room = Room::new();
    let answer = volume.read(at, place, count.min(1024), &mut room);
    if room.as_slice().iter().any(|byte| *byte != value) {
        return Answer::Differs;
    }
    of_count(answer)
}

fn has_lines(names: &[Name], lines: &[u8]) -> bool {
    let mut wanted = lines.split(|byte| *byte == b'\n');
    for name in names {
        if wanted.next() != Some(name.as_slice()) {
            return false;
        }
    }
    wanted.next() == Some(b"".as_slice()) && wanted.next().is_none()
}

fn list(alloc: Global, volume: &Volume, at: &[Name], lines: &[u8]) -> Answer {
    match volume.list(alloc, at) {
        Err(fault) => Answer::Refused(fault),
        Ok(names) if has_lines(names.as_slice(), lines) => Answer::Done,
        Ok(_) => Answer::Differs,
    }
}

// The names of a path but the first.
fn below(names: &[Name]) -> &[Name] {
    match names.split_first() {
        None => names,
        Some((_, below)) => below,
    }
}

fn rename(volume: &mut Volume, from: &[Name], to: Path) -> Answer {
    match split(to) {
        Ok(trail) => of_unit(volume.rename(from, below(trail.names()))),
        Err(_) => Answer::Differs,
    }
}

fn copy(volume: &mut Volume, from: &[Name], to: Path) -> Answer {
    match split(to) {
        Ok(trail) => of_unit(volume.copy(from, below(trail.names()))),
        Err(_) => Answer::Differs,
    }
}

fn copy_from(volume: &mut Volume, other: &Volume, from: &[Name], to: Path) -> Answer {
    match split(to) {
        Ok(trail) => of_unit(volume.copy_from(other, from, below(trail.names()))),
        Err(_) => Answer::Differs,
    }
}

// Makes a call, on a volume beside another one.
fn make_call(
    alloc: Global,
    volume: &mut Volume,
    other: &Volume,
    at: &[Name],
    call: Call,
) -> Answer {
    match call {
        Call::Create => of_unit(volume.create(at)),
        Call::CreateMany(count) => Answer::Gives(create_many(volume, count)),
        Call::Mkdir => of_unit(volume.mkdir(at)),
        Call::Write(place, count, value) => write(volume, at, place, count, value),
        Call::Read(place, count, value) => read(volume, at, place, count, value),
        Call::Truncate => of_unit(volume.truncate(at)),
        Call::Remove => of_unit(volume.remove(at)),
        Call::Rmdir => of_unit(volume.rmdir(at)),
        Call::RenameTo(to) => rename(volume, at, to),
        Call::CopyTo(to) => copy(volume, at, to),
        Call::CopyFromOther(to) => copy_from(volume, other, at, to),
        Call::List(lines) => list(alloc, volume, at, lines),
        Call::Kind => Answer::Is(volume.kind(at)),
        Call::Free => Answer::Gives(volume.free()),
    }
}

fn first_wrong(alloc: Global, volume: &mut Volume, other: &Volume, rows: &[Row]) -> Option<usize> {
    for (at, (path, call, want)) in rows.iter().enumerate() {
        let Ok(trail) = split(*path) else {
            return Some(at);
        };
        if make_call(alloc, volume, other, below(trail.names()), *call) != *want {
            return Some(at);
        }
    }
    None
}

// Follows the rows on a volume of so many blocks beside another one, and says at which one it answers otherwise.
fn follow<H: Abort + AllocGlobal>(rt: &H, total: u32, rows: &[Row]) -> Option<usize>
    requires { total ≤ 4096 }
{
    let other = Volume::mkfs(rt.alloc(), 1).expect(rt, "there is memory");
    let mut volume = Volume::mkfs(rt.alloc(), total.max(1)).expect(rt, "there is memory");
    first_wrong(rt.alloc(), &mut volume, &other, rows)
}
