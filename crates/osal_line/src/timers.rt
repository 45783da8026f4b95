//! The call lines on timers that have arguments of their own.
ghost use Rattle.std.specs.Prelude.{◌≡◌, map, option_map, IfOk};
ghost use Rattle.osal_line.specs.declared.kind.BodyKind.TheVariants as kind;
ghost use Rattle.osal_line.specs.Places.{number_in};
ghost use Rattle.osal_line.specs.Timers as timers;

use crate::arguments::{named_at, numbers_of};
use crate::declarations::Declarations;
use crate::registers::Registers;
use crate::{BodyKind, ScriptCall};
use osal_base::OutOfMemory;
use std::alloc::Global;

/// An addition: the register, the name, the timebase and the handler.
pub fn timer_add_of(
    alloc: Global,
    words: &[&[u8]],
    declared: &Declarations,
    begun: usize,
    registers: &mut Registers,
) -> Result<Option<ScriptCall>, OutOfMemory>
    ensures { IfOk result (λ made.
        timers.timer_add_of (number_in declared.now begun kind.Handler) (map (λ word. word.now) words.now) registers.old
        ≡ option_map (λ call. (call, registers.new)) made) }
{
    if words.len() != 4 {
        return Ok(None);
    }
    let Some((register, name)) = named_at(alloc, words[0], words[1], registers)? else {
        return Ok(None);
    };
    let Some(timebase) = registers.register_at(words[2])? else {
        return Ok(None);
    };
    let Some(handler) = registers.body_at(declared, begun, BodyKind::Handler, words[3]) else {
        return Ok(None);
    };
    Ok(Some(ScriptCall::TimerAdd {
        register,
        name,
        timebase,
        handler,
    }))
}

/// A setting: the timer, the start and the interval, in microseconds.
pub fn timer_set_of(
    words: &[&[u8]],
    registers: &mut Registers,
) -> Result<Option<ScriptCall>, OutOfMemory>
    ensures { IfOk result (λ made.
        timers.timer_set_of (map (λ word. word.now) words.now) registers.old
        ≡ option_map (λ call. (call, registers.new)) made) }
{
    if words.len() != 3 {
        return Ok(None);
    }
    let Some(id) = registers.register_at(words[0])? else {
        return Ok(None);
    };
    let Some((start, interval)) = numbers_of(words[1], words[2]) else {
        return Ok(None);
    };
    Ok(Some(ScriptCall::TimerSet {
        id,
        start,
        interval,
    }))
}
