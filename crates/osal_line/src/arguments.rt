//! The arguments of call lines, by their shapes.
ghost use Rattle.std.specs.Prelude.{◌≡◌, map, option_map, IfOk};
ghost use Rattle.osal_line.specs.Arguments as arguments;

use crate::registers::Registers;
use crate::strings::string_of;
use crate::values::{number_of, wait_of};
use crate::{Literal, Register};
use osal_base::{OutOfMemory, Timeout};
use std::alloc::Global;

/// An identifier, and no more.
pub fn only_id(words: &[&[u8]], registers: &mut Registers) -> Result<Option<Register>, OutOfMemory>
    ensures { IfOk result (λ found. arguments.only_id (map (λ word. word.now) words.now) registers.old
        ≡ option_map (λ id. (id, registers.new)) found) }
{
    if words.len() != 1 {
        return Ok(None);
    }
    registers.register_at(words[0])
}

/// An identifier and a wait.
pub fn id_and_wait(
    words: &[&[u8]],
    registers: &mut Registers,
) -> Result<Option<(Register, Timeout)>, OutOfMemory>
    ensures { IfOk result (λ found. arguments.id_and_wait (map (λ word. word.now) words.now) registers.old
        ≡ option_map (λ both. (both, registers.new)) found) }
{
    if words.len() != 2 {
        return Ok(None);
    }
    let Some(id) = registers.register_at(words[0])? else {
        return Ok(None);
    };
    let Some(wait) = wait_of(words[1]) else {
        return Ok(None);
    };
    Ok(Some((id, wait)))
}

/// The register that a call sets, and the name of the object.
pub fn named_at(
    alloc: Global,
    register: &[u8],
    name: &[u8],
    registers: &mut Registers,
) -> Result<Option<(Register, Literal)>, OutOfMemory>
    ensures { IfOk result (λ found. arguments.named_at registers.old register.now name.now
        ≡ option_map (λ named. (named, registers.new)) found) }
{
    let Some(register) = registers.register_at(register)? else {
        return Ok(None);
    };
    let Some(name) = string_of(alloc, name)? else {
        return Ok(None);
    };
    Ok(Some((register, name)))
}

/// The register that a call sets, and the name of the object, and no more.
pub fn only_name(
    alloc: Global,
    words: &[&[u8]],
    registers: &mut Registers,
) -> Result<Option<(Register, Literal)>, OutOfMemory>
    ensures { IfOk result (λ found. arguments.only_name (map (λ word. word.now) words.now) registers.old
        ≡ option_map (λ named. (named, registers.new)) found) }
{
    if words.len() != 2 {
        return Ok(None);
    }
    named_at(alloc, words[0], words[1], registers)
}

/// The register that a call sets, the name of the object, and a number.
pub fn name_and_number(
    alloc: Global,
    words: &[&[u8]],
    registers: &mut Registers,
) -> Result<Option<(Register, Literal, u32)>, OutOfMemory>
    ensures { IfOk result (λ found. arguments.name_and_number (map (λ word. word.now) words.now) registers.old
        ≡ option_map (λ all. (all, registers.new)) found) }
{
    if words.len() != 3 {
        return Ok(None);
    }
    let Some((register, name)) = named_at(alloc, words[0], words[1], registers)? else {
        return Ok(None);
    };
    let Some(number) = number_of(words[2]) else {
        return Ok(None);
    };
    Ok(Some((register, name, number)))
}

/// An identifier and a number.
pub fn id_and_number(
    words: &[&[u8]],
    registers: &mut Registers,
) -> Result<Option<(Register, u32)>, OutOfMemory>
    ensures { IfOk result (λ found. arguments.id_and_number (map (λ word. word.now) words.now) registers.old
        ≡ option_map (λ both. (both, registers.new)) found) }
{
    if words.len() != 2 {
        return Ok(None);
    }
    let Some(id) = registers.register_at(words[0])? else {
        return Ok(None);
    };
    let Some(number) = number_of(words[1]) else {
        return Ok(None);
    };
    Ok(Some((id, number)))
}

/// Two numbers.
pub fn numbers_of(one: &[u8], another: &[u8]) -> Option<(u32, u32)>
    ensures { result ≡ arguments.numbers_of one.now another.now }
{
    Some((number_of(one)?, number_of(another)?))
}

/// Two strings.
pub fn strings_of(
    alloc: Global,
    one: &[u8],
    another: &[u8],
) -> Result<Option<(Literal, Literal)>, OutOfMemory>
    ensures { IfOk result (λ found. found ≡ arguments.strings_of one.now another.now) }
{
    let Some(first) = string_of(alloc, one)? else {
        return Ok(None);
    };
    let Some(second) = string_of(alloc, another)? else {
        return Ok(None);
    };
    Ok(Some((first, second)))
}
