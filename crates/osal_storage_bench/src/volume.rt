//! The rounds on a volume of 4,096 blocks.
use crate::task::{Deed, Task};
use osal_base::{Name, Room};
use osal_volume::Volume;
use std::alloc::Global;

/// Fills a file, and then carries the task out; `None` where a call was refused or did something else.
pub(crate) fn carry_out(alloc: Global, task: Task) -> Option<()> {
    let file = [Name::new(b"file").ok()?];
    let copy = [Name::new(b"copy").ok()?];
    let mut volume = Volume::mkfs(alloc, 4096).ok()?;
    volume.create(&file).ok()?;
    write(&mut volume, &file, task.deed.size(), 4096)?;
    for _ in 0..task.rounds {
        carry_out_once(&mut volume, &file, &copy, task)?;
    }
    Some(())
}

fn carry_out_once(volume: &mut Volume, file: &[Name], copy: &[Name], task: Task) -> Option<()> {
    match task.deed {
        Deed::Write => write(volume, file, task.deed.size(), task.piece),
        Deed::Read => read(volume, file, task.deed.size(), task.piece),
        Deed::Copy => volume.copy(file, copy).ok(),
    }
}

fn write(volume: &mut Volume, at: &[Name], size: u32, piece: u32) -> Option<()> {
    let bytes = [b'x'; 4096];
    let piece = piece.max(1).min(4096);
    volume.truncate(at).ok()?;
    for turn in 0..size / piece {
        let place = turn.saturating_mul(piece);
        if volume.write(at, place, &bytes[..piece as usize]).ok()? != piece {
            return None;
        }
    }
    Some(())
}

fn read(volume: &Volume, at: &[Name], size: u32, piece: u32) -> Option<()> {
    let mut room = Room::new();
    let piece = piece.max(1).min(1024);
    for turn in 0..size / piece {
        let place = turn.saturating_mul(piece);
        volume.read(at, place, piece, &mut room).ok()?;
        if room.as_slice().last() != Some(&b'x') {
            return None;
        }
    }
    Some(())
}
