//! The call lines on files, directories and file systems that have arguments of their own.
ghost use Rattle.std.specs.Prelude.{◌≡◌, map, option_map, IfOk};
ghost use Rattle.osal_line.specs.Files as files;

use crate::arguments::{named_at, strings_of};
use crate::choices::{access_of, flags_of, offset_of, whence_of};
use crate::registers::Registers;
use crate::strings::string_of;
use crate::transfers::{id_and_payload, id_and_room};
use crate::values::number_of;
use crate::{Register, ScriptCall};
use osal_base::{Access, OpenFlags, OutOfMemory};
use osal_call::{PathWord, PathsWord};
use std::alloc::Global;

/// A call with a path or a device, and no more.
pub fn path_call_of(
    alloc: Global,
    word: PathWord,
    words: &[&[u8]],
) -> Result<Option<ScriptCall>, OutOfMemory>
    ensures { IfOk result (λ made. made ≡ files.path_call_of word (map (λ word. word.now) words.now)) }
{
    if words.len() != 1 {
        return Ok(None);
    }
    let found = string_of(alloc, words[0])?;
    Ok(found.map(|path| ScriptCall::Path { word, path }))
}

/// A call with two paths, or a device and a path.
pub fn paths_call_of(
    alloc: Global,
    word: PathsWord,
    words: &[&[u8]],
) -> Result<Option<ScriptCall>, OutOfMemory>
    ensures { IfOk result (λ made. made ≡ files.paths_call_of word (map (λ word. word.now) words.now)) }
{
    if words.len() != 2 {
        return Ok(None);
    }
    let found = strings_of(alloc, words[0], words[1])?;
    Ok(found.map(|(path, to)| ScriptCall::Paths { word, path, to }))
}

/// A volume that is made: the device, the label and the blocks.
pub fn mkfs_of(alloc: Global, words: &[&[u8]]) -> Result<Option<ScriptCall>, OutOfMemory>
    ensures { IfOk result (λ made. made ≡ files.mkfs_of (map (λ word. word.now) words.now)) }
{
    if words.len() != 3 {
        return Ok(None);
    }
    let Some((device, label)) = strings_of(alloc, words[0], words[1])? else {
        return Ok(None);
    };
    let Some(blocks) = number_of(words[2]) else {
        return Ok(None);
    };
    Ok(Some(ScriptCall::Mkfs {
        device,
        label,
        blocks,
    }))
}

/// An opening: the register, the path, the flags and the access.
pub fn open_of(
    alloc: Global,
    words: &[&[u8]],
    registers: &mut Registers,
) -> Result<Option<ScriptCall>, OutOfMemory>
    ensures { IfOk result (λ made.
        files.open_of (map (λ word. word.now) words.now) registers.old
        ≡ option_map (λ call. (call, registers.new)) made) }
{
    if words.len() != 4 {
        return Ok(None);
    }
    let Some((register, path)) = named_at(alloc, words[0], words[1], registers)? else {
        return Ok(None);
    };
    let Some((flags, access)) = opening_of(words[2], words[3]) else {
        return Ok(None);
    };
    Ok(Some(ScriptCall::Open {
        register,
        path,
        flags,
        access,
    }))
}

/// The flags and the access of an opening.
fn opening_of(flags: &[u8], access: &[u8]) -> Option<(OpenFlags, Access)>
    ensures { result ≡ files.opening_of flags.now access.now }
{
    Some((flags_of(flags)?, access_of(access)?))
}

/// A read: the file, the room and the wait.
pub fn read_of(
    words: &[&[u8]],
    registers: &mut Registers,
) -> Result<Option<ScriptCall>, OutOfMemory>
    ensures { IfOk result (λ made.
        files.read_of (map (λ word. word.now) words.now) registers.old
        ≡ option_map (λ call. (call, registers.new)) made) }
{
    let found = id_and_room(words, registers)?;
    Ok(found.map(|(id, n, wait)| ScriptCall::Read { id, n, wait }))
}

/// A write: the file and the payload.
pub fn write_of(
    alloc: Global,
    words: &[&[u8]],
    registers: &mut Registers,
) -> Result<Option<ScriptCall>, OutOfMemory>
    ensures { IfOk result (λ made.
        files.write_of (map (λ word. word.now) words.now) registers.old
        ≡ option_map (λ call. (call, registers.new)) made) }
{
    let found = id_and_payload(alloc, words, registers)?;
    Ok(found.map(|(id, payload)| ScriptCall::Write { id, payload }))
}

/// A seek: the file, the offset and from where it counts.
pub fn lseek_of(
    words: &[&[u8]],
    registers: &mut Registers,
) -> Result<Option<ScriptCall>, OutOfMemory>
    ensures { IfOk result (λ made.
        files.lseek_of (map (λ word. word.now) words.now) registers.old
        ≡ option_map (λ call. (call, registers.new)) made) }
{
    if words.len() != 3 {
        return Ok(None);
    }
    let Some(id) = registers.register_at(words[0])? else {
        return Ok(None);
    };
    Ok(seek_in(id, words[1], words[2]))
}

/// A seek in the file of a register: the offset and from where it counts.
fn seek_in(id: Register, offset: &[u8], whence: &[u8]) -> Option<ScriptCall>
    ensures { result ≡ files.seek_in id offset.now whence.now }
{
    let offset = offset_of(offset)?;
    let whence = whence_of(whence)?;
    Some(ScriptCall::Lseek { id, offset, whence })
}
