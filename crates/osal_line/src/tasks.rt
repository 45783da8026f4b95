//! The call lines on tasks that have arguments of their own.
ghost use Rattle.std.specs.Prelude.{◌≡◌, map, option_map, IfOk};
ghost use Rattle.osal_line.specs.declared.kind.BodyKind.TheVariants as kind;
ghost use Rattle.osal_line.specs.Places.{number_in};
ghost use Rattle.osal_line.specs.Tasks as tasks;

use crate::arguments::{named_at, numbers_of};
use crate::declarations::Declarations;
use crate::registers::Registers;
use crate::values::number_of;
use crate::{BodyKind, ScriptCall};
use osal_base::OutOfMemory;
use std::alloc::Global;

/// A creation: the register, the name, the body, the stack and the priority.
pub fn task_create_of(
    alloc: Global,
    words: &[&[u8]],
    declared: &Declarations,
    begun: usize,
    registers: &mut Registers,
) -> Result<Option<ScriptCall>, OutOfMemory>
    ensures { IfOk result (λ made.
        tasks.task_create_of (number_in declared.now begun kind.Task) (map (λ word. word.now) words.now) registers.old
        ≡ option_map (λ call. (call, registers.new)) made) }
{
    if words.len() != 5 {
        return Ok(None);
    }
    let Some((register, name)) = named_at(alloc, words[0], words[1], registers)? else {
        return Ok(None);
    };
    let Some(body) = registers.body_at(declared, begun, BodyKind::Task, words[2]) else {
        return Ok(None);
    };
    let Some((stack, priority)) = numbers_of(words[3], words[4]) else {
        return Ok(None);
    };
    Ok(Some(ScriptCall::TaskCreate {
        register,
        name,
        body,
        stack,
        priority,
    }))
}

/// An exit, without arguments.
pub fn task_exit_of(words: &[&[u8]]) -> Option<ScriptCall>
    ensures { result ≡ tasks.task_exit_of (map (λ word. word.now) words.now) }
{
    if words.is_empty() {
        Some(ScriptCall::TaskExit)
    } else {
        None
    }
}

/// A delay: its milliseconds.
pub fn task_delay_of(words: &[&[u8]]) -> Option<ScriptCall>
    ensures { result ≡ tasks.task_delay_of (map (λ word. word.now) words.now) }
{
    if words.len() != 1 {
        return None;
    }
    let ms = number_of(words[0])?;
    Some(ScriptCall::TaskDelay { ms })
}
