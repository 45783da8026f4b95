//! The call lines that select among streams.
ghost use Rattle.std.specs.Prelude.{◌≡◌, map, option_map, IfOk};
ghost use Rattle.osal_line.specs.Selects as selects;

use crate::ScriptCall;
use crate::registers::Registers;
use crate::sets::set_at;
use crate::values::wait_of;
use osal_base::{Mode, OutOfMemory, Timeout};
use std::alloc::Global;

/// What a select of one stream waits for.
fn mode_of(word: &[u8]) -> Option<Mode>
    ensures { result ≡ selects.mode_of word.now }
{
    if word == b"r".as_slice() {
        return Some(Mode::R);
    }
    if word == b"w".as_slice() {
        return Some(Mode::W);
    }
    if word == b"rw".as_slice() {
        return Some(Mode::Rw);
    }
    None
}

/// What a select waits for, and how long.
fn watch_of(mode: &[u8], wait: &[u8]) -> Option<(Mode, Timeout)>
    ensures { result ≡ selects.watch_of mode.now wait.now }
{
    Some((mode_of(mode)?, wait_of(wait)?))
}

/// A select of one stream: the stream, what it waits for and the wait.
pub fn select_one_of(
    words: &[&[u8]],
    registers: &mut Registers,
) -> Result<Option<ScriptCall>, OutOfMemory>
    ensures { IfOk result (λ made.
        selects.select_one_of (map (λ word. word.now) words.now) registers.old
        ≡ option_map (λ call. (call, registers.new)) made) }
{
    if words.len() != 3 {
        return Ok(None);
    }
    let Some(id) = registers.register_at(words[0])? else {
        return Ok(None);
    };
    let Some((mode, wait)) = watch_of(words[1], words[2]) else {
        return Ok(None);
    };
    Ok(Some(ScriptCall::SelectOne { id, mode, wait }))
}

/// A select of some streams: those to read, those to write and the wait.
pub fn select_multi_of(
    alloc: Global,
    words: &[&[u8]],
    registers: &mut Registers,
) -> Result<Option<ScriptCall>, OutOfMemory>
    ensures { IfOk result (λ made.
        selects.select_multi_of (map (λ word. word.now) words.now) registers.old
        ≡ option_map (λ call. (call, registers.new)) made) }
{
    if words.len() != 3 {
        return Ok(None);
    }
    let Some(reads) = set_at(alloc, words[0], registers)? else {
        return Ok(None);
    };
    let Some(writes) = set_at(alloc, words[1], registers)? else {
        return Ok(None);
    };
    let Some(wait) = wait_of(words[2]) else {
        return Ok(None);
    };
    Ok(Some(ScriptCall::SelectMulti {
        reads,
        writes,
        wait,
    }))
}
