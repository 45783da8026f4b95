//! The same rounds on a vector.
use crate::task::{Deed, Task};
use osal_base::Room;
use std::alloc::Global;

/// Fills a vector, and then carries the task out; `None` where there was no memory, or a byte was another one.
pub(crate) fn carry_out(alloc: Global, task: Task) -> Option<()> {
    let mut file = Vec::with_capacity(alloc, task.deed.size() as usize).ok()?;
    let mut copy = Vec::with_capacity(alloc, task.deed.size() as usize).ok()?;
    write(&mut file, task.deed.size() as usize, 4096)?;
    for _ in 0..task.rounds {
        carry_out_once(&mut file, &mut copy, task)?;
    }
    Some(())
}

fn carry_out_once(file: &mut Vec<u8>, copy: &mut Vec<u8>, task: Task) -> Option<()> {
    match task.deed {
        Deed::Write => write(file, task.deed.size() as usize, task.piece as usize),
        Deed::Read => read(file.as_slice(), task.piece as usize),
        Deed::Copy => {
            copy.clear();
            copy.extend_from_slice(file.as_slice()).ok()
        }
    }
}

fn write(file: &mut Vec<u8>, size: usize, piece: usize) -> Option<()> {
    let bytes = [b'x'; 4096];
    let piece = piece.max(1).min(4096);
    file.clear();
    for _ in 0..size / piece {
        file.extend_from_slice(&bytes[..piece]).ok()?;
    }
    Some(())
}

fn read(file: &[u8], piece: usize) -> Option<()> {
    let mut room = Room::new();
    let piece = piece.max(1).min(Room::LIMIT);
    for turn in 0..file.len() / piece {
        let place = turn.saturating_mul(piece).min(file.len());
        let rest = &file[place..];
        room.clear();
        room.append(&rest[..piece.min(rest.len())]);
        if room.as_slice().last() != Some(&b'x') {
            return None;
        }
    }
    Some(())
}
