//! The call that a line makes under the registers.
ghost use Rattle.std.specs.Prelude.{◌≡◌, ◌≤◌, IfOk, length, option_copied, slice_index};
ghost use Rattle.osal_call.specs.Call as machine;
ghost use Rattle.osal_call.specs.Call.{said};
ghost use Rattle.osal_line.specs.declared.line.ScriptCall.TheVariants as script;
ghost use Rattle.osal_line.specs.Calls as calls;

use crate::{Line, Register, RegisterSet, ScriptCall};
use osal_base::{OsalId, OutOfMemory, Timeout};
use osal_call::{Call, part_of};
use osal_select::{BoxedSet, FdSet};
use std::alloc::Global;

/// The call of a line under the registers, or the exit where there is no line.
///
/// Names, paths and payloads are copied, and sets of streams are made.
pub fn call_made(
    alloc: Global,
    line: Option<&Line>,
    registers: &[u32; 32],
) -> Result<Call, OutOfMemory>
    ensures { IfOk result (λ call. said call ≡ calls.call_made (option_copied line.entry) registers.now) }
{
    match line {
        Some(line) => call_of(alloc, &line.call, registers),
        None => Ok(Call::TaskExit),
    }
}

/// The call that a line writes, with what the registers hold.
fn call_of(alloc: Global, call: &ScriptCall, registers: &[u32; 32]) -> Result<Call, OutOfMemory>
    ensures { IfOk result (λ made. said made ≡ calls.call_of call.now registers.now) }
{
    Ok(match call {
        ScriptCall::Object { word, id } => word.call(held_in(registers, *id)),
        ScriptCall::Name { word, name, .. } => word.call(name.copied(alloc)?),
        ScriptCall::Wait { word, id, wait } => word.call(held_in(registers, *id), *wait),
        ScriptCall::Value {
            word,
            name,
            value,
            ..
        } => word.call(name.copied(alloc)?, *value),
        ScriptCall::Number { word, id, number } => word.call(held_in(registers, *id), *number),
        ScriptCall::Path { word, path } => word.call(path.copied(alloc)?),
        ScriptCall::Paths { word, path, to } => {
            word.call(path.copied(alloc)?, to.copied(alloc)?)
        }
        ScriptCall::Bare { word } => word.call(),
        ScriptCall::TaskCreate {
            name,
            body,
            stack,
            priority,
            ..
        } => Call::TaskCreate {
            name: name.copied(alloc)?,
            body: *body,
            stack: *stack,
            priority: *priority,
        },
        ScriptCall::TaskExit => Call::TaskExit,
        ScriptCall::TaskDelay { ms } => Call::TaskDelay { ms: *ms },
        ScriptCall::QueueCreate {
            name,
            depth,
            size,
            ..
        } => Call::QueueCreate {
            name: name.copied(alloc)?,
            depth: *depth,
            size: *size,
        },
        ScriptCall::QueuePut { id, payload } => Call::QueuePut {
            id: held_in(registers, *id),
            payload: payload.copied(alloc)?,
        },
        ScriptCall::QueueGet { id, n, wait } => Call::QueueGet {
            id: held_in(registers, *id),
            n: *n,
            wait: *wait,
        },
        ScriptCall::TimerAdd {
            name,
            timebase,
            handler,
            ..
        } => Call::TimerAdd {
            name: name.copied(alloc)?,
            timebase: held_in(registers, *timebase),
            handler: *handler,
        },
        ScriptCall::TimerSet {
            id,
            start,
            interval,
        } => Call::TimerSet {
            id: held_in(registers, *id),
            start: *start,
            interval: *interval,
        },
        ScriptCall::Mkfs {
            device,
            label,
            blocks,
        } => Call::Mkfs {
            device: device.copied(alloc)?,
            label: label.copied(alloc)?,
            blocks: *blocks,
        },
        ScriptCall::Open {
            path,
            flags,
            access,
            ..
        } => Call::Open {
            path: path.copied(alloc)?,
            flags: *flags,
            access: *access,
        },
        ScriptCall::Read { id, n, wait } => Call::Read {
            id: held_in(registers, *id),
            n: *n,
            wait: *wait,
        },
        ScriptCall::Write { id, payload } => Call::Write {
            id: held_in(registers, *id),
            payload: payload.copied(alloc)?,
        },
        ScriptCall::Lseek { id, offset, whence } => Call::Lseek {
            id: held_in(registers, *id),
            offset: *offset,
            whence: *whence,
        },
        ScriptCall::SocketOpen { kind, .. } => Call::SocketOpen { kind: *kind },
        ScriptCall::SocketAccept { id, wait, .. } => Call::SocketAccept {
            id: held_in(registers, *id),
            wait: *wait,
        },
        ScriptCall::SocketSend { id, payload, port } => Call::SocketSend {
            id: held_in(registers, *id),
            payload: payload.copied(alloc)?,
            port: *port,
        },
        ScriptCall::SocketRecv { id, n, wait } => Call::SocketRecv {
            id: held_in(registers, *id),
            n: *n,
            wait: *wait,
        },
        ScriptCall::SocketShutdown { id, how } => Call::SocketShutdown {
            id: held_in(registers, *id),
            how: *how,
        },
        ScriptCall::SelectOne { id, mode, wait } => Call::SelectOne {
            id: held_in(registers, *id),
            mode: *mode,
            wait: *wait,
        },
        ScriptCall::SelectMulti {
            reads,
            writes,
            wait,
        } => select_of(alloc, reads, writes, *wait, registers)?,
        ScriptCall::ConsoleWrite { payload } => Call::ConsoleWrite {
            payload: payload.copied(alloc)?,
        },
    })
}

/// The number of the part whose call it is. It takes no memory.
pub fn part_made(line: Option<&Line>, registers: &[u32; 32]) -> u32
    ensures { result ≡ machine.part_of (calls.call_made (option_copied line.entry) registers.now) }
{
    let Some(line) = line else {
        return 0;
    };
    match &line.call {
        ScriptCall::Object { word, id } => part_of(&word.call(held_in(registers, *id))),
        ScriptCall::Name { word, .. } => word.part(),
        ScriptCall::Wait { word, id, wait } => part_of(&word.call(held_in(registers, *id), *wait)),
        ScriptCall::Value { word, .. } => word.part(),
        ScriptCall::Number { word, id, number } => {
            part_of(&word.call(held_in(registers, *id), *number))
        }
        ScriptCall::TaskCreate { .. } | ScriptCall::TaskExit | ScriptCall::TaskDelay { .. } => 0,
        ScriptCall::QueueCreate { .. }
        | ScriptCall::QueuePut { .. }
        | ScriptCall::QueueGet { .. } => 1,
        ScriptCall::TimerAdd { .. } | ScriptCall::TimerSet { .. } => 6,
        ScriptCall::Path { .. }
        | ScriptCall::Paths { .. }
        | ScriptCall::Mkfs { .. }
        | ScriptCall::Open { .. }
        | ScriptCall::Read { .. }
        | ScriptCall::Write { .. }
        | ScriptCall::Lseek { .. }
        | ScriptCall::SocketOpen { .. }
        | ScriptCall::SocketAccept { .. }
        | ScriptCall::SocketSend { .. }
        | ScriptCall::SocketRecv { .. }
        | ScriptCall::SocketShutdown { .. }
        | ScriptCall::SelectOne { .. }
        | ScriptCall::SelectMulti { .. } => 7,
        ScriptCall::Bare { .. } | ScriptCall::ConsoleWrite { .. } => 8,
    }
}

/// The identifier in a register.
fn held_in(registers: &[u32; 32], register: Register) -> OsalId
    ensures { result ≡ slice_index registers.now register }
{
    OsalId::of_raw(registers[register.index()])
}

/// A select among the streams whose identifiers the registers of two sets hold.
fn select_of(
    alloc: Global,
    reads: &RegisterSet,
    writes: &RegisterSet,
    wait: Timeout,
    registers: &[u32; 32],
) -> Result<Call, OutOfMemory>
    ensures { IfOk result (λ made. said made ≡ calls.call_of (script.SelectMulti reads.now writes.now wait) registers.now) }
{
    let reads = set_of(alloc, reads, registers)?;
    let writes = set_of(alloc, writes, registers)?;
    Ok(Call::SelectMulti {
        reads,
        writes,
        wait,
    })
}

/// The streams whose identifiers the registers of a set hold.
fn set_of(alloc: Global, set: &RegisterSet, registers: &[u32; 32]) -> Result<BoxedSet, OutOfMemory>
    ensures { IfOk result (λ made. made ≡ calls.streams_in registers.now set.now) }
{
    BoxedSet::new(alloc, streams_in(registers, set.as_slice()))
}

/// The set of the streams whose identifiers some registers hold.
///
/// It costs the product of the number of registers and that of the streams.
fn streams_in(registers: &[u32; 32], named: &[Register]) -> FdSet
    requires { length named.now ≤ 64 }
    ensures { result ≡ calls.streams_in registers.now named.now }
{
    let mut streams = FdSet::zero();
    for register in named {
        streams.add(held_in(registers, *register));
    }
    streams
}
