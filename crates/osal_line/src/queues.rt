//! The call lines on queues that have arguments of their own.
ghost use Rattle.std.specs.Prelude.{◌≡◌, map, option_map, IfOk};
ghost use Rattle.osal_line.specs.Queues as queues;

use crate::ScriptCall;
use crate::arguments::{named_at, numbers_of};
use crate::registers::Registers;
use crate::transfers::{id_and_payload, id_and_room};
use osal_base::OutOfMemory;
use std::alloc::Global;

/// A creation: the register, the name, the depth and the size.
pub fn queue_create_of(
    alloc: Global,
    words: &[&[u8]],
    registers: &mut Registers,
) -> Result<Option<ScriptCall>, OutOfMemory>
    ensures { IfOk result (λ made.
        queues.queue_create_of (map (λ word. word.now) words.now) registers.old
        ≡ option_map (λ call. (call, registers.new)) made) }
{
    if words.len() != 4 {
        return Ok(None);
    }
    let Some((register, name)) = named_at(alloc, words[0], words[1], registers)? else {
        return Ok(None);
    };
    let Some((depth, size)) = numbers_of(words[2], words[3]) else {
        return Ok(None);
    };
    Ok(Some(ScriptCall::QueueCreate {
        register,
        name,
        depth,
        size,
    }))
}

/// A put: the queue and the payload.
pub fn queue_put_of(
    alloc: Global,
    words: &[&[u8]],
    registers: &mut Registers,
) -> Result<Option<ScriptCall>, OutOfMemory>
    ensures { IfOk result (λ made.
        queues.queue_put_of (map (λ word. word.now) words.now) registers.old
        ≡ option_map (λ call. (call, registers.new)) made) }
{
    let found = id_and_payload(alloc, words, registers)?;
    Ok(found.map(|(id, payload)| ScriptCall::QueuePut { id, payload }))
}

/// A get: the queue, the room and the wait.
pub fn queue_get_of(
    words: &[&[u8]],
    registers: &mut Registers,
) -> Result<Option<ScriptCall>, OutOfMemory>
    ensures { IfOk result (λ made.
        queues.queue_get_of (map (λ word. word.now) words.now) registers.old
        ≡ option_map (λ call. (call, registers.new)) made) }
{
    let found = id_and_room(words, registers)?;
    Ok(found.map(|(id, n, wait)| ScriptCall::QueueGet { id, n, wait }))
}
