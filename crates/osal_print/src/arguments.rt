//! The arguments of calls.
ghost use Rattle.std.specs.Prelude.{◌≡◌, ◌++◌, ℕ, List, false, OnOk};
ghost use Rattle.osal_print.specs.Words.{argument_words};
ghost use Rattle.osal_print.specs.Subjects.{is_shared, is_of_task_or_queue, is_of_timer, is_of_file};
ghost use Rattle.osal_print.specs.PrintText.{body_name, spaced};

use crate::shortest::push_payload;
use crate::words::{
    push_body_word, push_giving, push_made, push_number_word, push_number_words,
    push_register_word, push_set_word, push_signed_word, push_string_word, push_taking,
    push_wait_word, push_word,
};
use osal_base::OutOfMemory;
use osal_journal::{access_text, flags_text, how_text, kind_text, mode_text, whence_text};
use osal_script::{App, ScriptCall};

/// Appends the arguments of a call.
pub(crate) fn push_arguments(
    out: &mut Vec<u8>,
    app: &App,
    call: &ScriptCall,
) -> Result<(), OutOfMemory>
    ensures { OnOk result (out.new.items
        ≡ out.old.items ++ spaced (argument_words (body_name app.now) call.now)) }
{
    match call {
        ScriptCall::Object { id, .. } => push_register_word(out, *id),
        ScriptCall::Name { register, name, .. } => push_made(out, *register, name),
        ScriptCall::Wait { id, wait, .. } => {
            push_register_word(out, *id)?;
            push_wait_word(out, *wait)
        }
        ScriptCall::Value {
            register,
            name,
            value,
            ..
        } => {
            push_made(out, *register, name)?;
            push_number_word(out, *value)
        }
        ScriptCall::Number { id, number, .. } => {
            push_register_word(out, *id)?;
            push_number_word(out, *number)
        }
        ScriptCall::Path { path, .. } => push_string_word(out, path),
        ScriptCall::Paths { path, to, .. } => {
            push_string_word(out, path)?;
            push_string_word(out, to)
        }
        ScriptCall::Bare { .. } => Ok(()),
        _ => push_task_arguments(out, app, call),
    }
}

/// Appends the arguments of a call on tasks or queues, or goes on to the others.
fn push_task_arguments(out: &mut Vec<u8>, app: &App, call: &ScriptCall) -> Result<(), OutOfMemory>
    requires { is_shared call.now ≡ false }
    ensures { OnOk result (out.new.items
        ≡ out.old.items ++ spaced (argument_words (body_name app.now) call.now)) }
{
    match call {
        ScriptCall::TaskCreate {
            register,
            name,
            body,
            stack,
            priority,
        } => {
            push_made(out, *register, name)?;
            push_body_word(out, app, *body)?;
            push_number_words(out, *stack, *priority)
        }
        ScriptCall::TaskExit => Ok(()),
        ScriptCall::TaskDelay { ms } => push_number_word(out, *ms),
        ScriptCall::QueueCreate {
            register,
            name,
            depth,
            size,
        } => {
            push_made(out, *register, name)?;
            push_number_words(out, *depth, *size)
        }
        ScriptCall::QueuePut { id, payload } => push_giving(out, *id, payload),
        ScriptCall::QueueGet { id, n, wait } => push_taking(out, *id, *n, *wait),
        _ => push_timer_arguments(out, app, call),
    }
}

/// Appends the arguments of a call on timers, or goes on to the others.
fn push_timer_arguments(out: &mut Vec<u8>, app: &App, call: &ScriptCall) -> Result<(), OutOfMemory>
    requires own { is_shared call.now ≡ false }
    requires task { is_of_task_or_queue call.now ≡ false }
    ensures { OnOk result (out.new.items
        ≡ out.old.items ++ spaced (argument_words (body_name app.now) call.now)) }
{
    match call {
        ScriptCall::TimerAdd {
            register,
            name,
            timebase,
            handler,
        } => {
            push_made(out, *register, name)?;
            push_register_word(out, *timebase)?;
            push_body_word(out, app, *handler)
        }
        ScriptCall::TimerSet {
            id,
            start,
            interval,
        } => {
            push_register_word(out, *id)?;
            push_number_words(out, *start, *interval)
        }
        _ => push_file_arguments(out, call),
    }
}

/// Appends the arguments of a call on files, or goes on to those on sockets.
fn push_file_arguments(out: &mut Vec<u8>, call: &ScriptCall) -> Result<(), OutOfMemory>
    requires own { is_shared call.now ≡ false }
    requires task { is_of_task_or_queue call.now ≡ false }
    requires timer { is_of_timer call.now ≡ false }
    ensures { (names : ℕ → List ℕ) → OnOk result (out.new.items
        ≡ out.old.items ++ spaced (argument_words names call.now)) }
{
    match call {
        ScriptCall::Mkfs {
            device,
            label,
            blocks,
        } => {
            push_string_word(out, device)?;
            push_string_word(out, label)?;
            push_number_word(out, *blocks)
        }
        ScriptCall::Open {
            register,
            path,
            flags,
            access,
        } => {
            push_made(out, *register, path)?;
            push_word(out, flags_text(*flags))?;
            push_word(out, access_text(*access))
        }
        ScriptCall::Read { id, n, wait } => push_taking(out, *id, *n, *wait),
        ScriptCall::Write { id, payload } => push_giving(out, *id, payload),
        ScriptCall::Lseek { id, offset, whence } => {
            push_register_word(out, *id)?;
            push_signed_word(out, *offset)?;
            push_word(out, whence_text(*whence))
        }
        _ => push_socket_arguments(out, call),
    }
}

/// Appends the arguments of a call on sockets or the console, or of a select.
fn push_socket_arguments(out: &mut Vec<u8>, call: &ScriptCall) -> Result<(), OutOfMemory>
    requires own { is_shared call.now ≡ false }
    requires task { is_of_task_or_queue call.now ≡ false }
    requires timer { is_of_timer call.now ≡ false }
    requires file { is_of_file call.now ≡ false }
    ensures { (names : ℕ → List ℕ) → OnOk result (out.new.items
        ≡ out.old.items ++ spaced (argument_words names call.now)) }
{
    match call {
        ScriptCall::SocketOpen { register, kind } => {
            push_register_word(out, *register)?;
            push_word(out, kind_text(*kind))
        }
        ScriptCall::SocketAccept { register, id, wait } => {
            push_register_word(out, *register)?;
            push_register_word(out, *id)?;
            push_wait_word(out, *wait)
        }
        ScriptCall::SocketSend { id, payload, port } => {
            push_giving(out, *id, payload)?;
            push_number_word(out, *port)
        }
        ScriptCall::SocketRecv { id, n, wait } => push_taking(out, *id, *n, *wait),
        ScriptCall::SocketShutdown { id, how } => {
            push_register_word(out, *id)?;
            push_word(out, how_text(*how))
        }
        ScriptCall::SelectOne { id, mode, wait } => {
            push_register_word(out, *id)?;
            push_word(out, mode_text(*mode))?;
            push_wait_word(out, *wait)
        }
        ScriptCall::SelectMulti {
            reads,
            writes,
            wait,
        } => {
            push_set_word(out, reads)?;
            push_set_word(out, writes)?;
            push_wait_word(out, *wait)
        }
        ScriptCall::ConsoleWrite { payload } => push_payload(out, payload),
        _ => unreachable!(),
    }
}
