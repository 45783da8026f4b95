//! The arguments of calls that carry bytes.
ghost use Rattle.std.specs.Prelude.{◌≡◌, map, option_map, IfOk};
ghost use Rattle.osal_line.specs.Transfers as transfers;

use crate::payload::payload_of;
use crate::registers::Registers;
use crate::values::{number_of, wait_of};
use crate::{Literal, Register};
use osal_base::{OutOfMemory, Timeout};
use std::alloc::Global;

/// An identifier and a payload.
pub fn id_and_payload(
    alloc: Global,
    words: &[&[u8]],
    registers: &mut Registers,
) -> Result<Option<(Register, Literal)>, OutOfMemory>
    ensures { IfOk result (λ found. transfers.id_and_payload (map (λ word. word.now) words.now) registers.old
        ≡ option_map (λ both. (both, registers.new)) found) }
{
    if words.is_empty() {
        return Ok(None);
    }
    let Some(id) = registers.register_at(words[0])? else {
        return Ok(None);
    };
    let Some(payload) = payload_of(alloc, &words[1..])? else {
        return Ok(None);
    };
    Ok(Some((id, payload)))
}

/// An identifier, a room and a wait.
pub fn id_and_room(
    words: &[&[u8]],
    registers: &mut Registers,
) -> Result<Option<(Register, u32, Timeout)>, OutOfMemory>
    ensures { IfOk result (λ found. transfers.id_and_room (map (λ word. word.now) words.now) registers.old
        ≡ option_map (λ all. (all, registers.new)) found) }
{
    if words.len() != 3 {
        return Ok(None);
    }
    let Some(id) = registers.register_at(words[0])? else {
        return Ok(None);
    };
    let Some((n, wait)) = room_of(words[1], words[2]) else {
        return Ok(None);
    };
    Ok(Some((id, n, wait)))
}

/// The room for the bytes, and the wait for them.
fn room_of(room: &[u8], wait: &[u8]) -> Option<(u32, Timeout)>
    ensures { result ≡ transfers.room_of room.now wait.now }
{
    Some((number_of(room)?, wait_of(wait)?))
}
