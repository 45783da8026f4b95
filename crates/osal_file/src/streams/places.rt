//! The place in an open file: how far a read or a write goes, and where a seek leads.
ghost use Rattle.std.specs.Prelude.{◌≡◌, ◌≤◌, ◌+◌, ◌+ℤ◌, length, pos, IfOk, IfErr, Ok, Err};
ghost use Rattle.osal_volume.specs.Volume.{content_at};
ghost use Rattle.osal_volume.specs.Steps.{read_step, write_step};
ghost use Rattle.osal_file.specs.Streams.{length_of, seeks_from, placed};

use crate::OpenFile;
use osal_base::{Name, Room, Whence};
use osal_volume::{Kind, VolFault, Volume};

/// The greatest place in a file that a seek reaches.
const PLACE_LIMIT: i64 = 2_147_483_647;

/// Reads to the room, and says how many bytes were read and the place behind them.
pub(super) fn read_from(
    volume: &Volume,
    at: &[Name],
    place: u32,
    n: u32,
    room: &mut Room,
) -> Result<(u32, u32), VolFault>
    requires { n ≤ 1024 }
    ensures bytes { IfOk result (λ told. (read_step (content_at volume.now at.now) place n ≡ Ok room.new)
        × (told.0 ≡ length room.new) × (told.0 ≤ 1024) × (told.1 ≡ place + length room.new)) }
    ensures refused { IfErr result (λ why. (read_step (content_at volume.now at.now) place n ≡ Err why)
        × (room.new ≡ room.old)) }
{
    let length = length_of(volume, at);
    let count = volume.read(at, place, n, room)?;
    // Past the end nothing was read, and the place stays; else the place behind the bytes is within the file.
    if length <= place {
        return Ok((count, place));
    }
    Ok((count, place + count))
}

/// Writes the bytes that fit, and says how many were written and the place behind them.
pub(super) fn write_to(
    volume: &mut Volume,
    at: &[Name],
    place: u32,
    payload: &[u8],
) -> Result<(u32, u32), VolFault>
    requires some { 1 ≤ length payload.now }
    requires few { length payload.now ≤ 4096 }
    ensures count { IfOk result (λ told. ((Ok told.0, volume.new) ≡ write_step volume.old at.now place payload.now)
        × (told.0 ≤ 4096) × (told.1 ≡ place + told.0)) }
    ensures refused { IfErr result (λ why. (Err why, volume.new) ≡ write_step volume.old at.now place payload.now) }
{
    let count = volume.write(at, place, payload)?;
    // What was written lies within the file, whose length is a u32: so is the place behind it.
    let _length = length_of(volume, at);
    Ok((count, place + count))
}

// How many bytes what stands at a path has.
fn length_of(volume: &Volume, at: &[Name]) -> u32
    ensures { result ≡ length_of (content_at volume.now at.now) }
{
    match volume.kind(at) {
        Some(Kind::File(length)) => length,
        _ => 0,
    }
}

/// From where a seek counts.
pub(super) fn seeks_from(from: Whence, file: &OpenFile, volume: &Volume) -> u32
    ensures { result ≡ seeks_from from file.now volume.now }
{
    match from {
        Whence::Set => 0,
        Whence::Cur => file.place,
        Whence::End => length_of(volume, file.trail.names()),
    }
}

/// The place that is reached, where there is one.
pub(super) fn placed(start: u32, offset: i64) -> Option<u32>
    ensures { result ≡ placed (pos start +ℤ offset) }
{
    let place = i64::from(start).checked_add(offset)?;
    if place < 0 || place > PLACE_LIMIT {
        return None;
    }
    Some(place as u32)
}
