//! What a line is, and the call that a call line makes.
ghost use Rattle.std.specs.Prelude.{◌≡◌, map, option_map, IfOk};
ghost use Rattle.osal_line.specs.Places.{number_in};
ghost use Rattle.osal_line.specs.Grammar as grammar;

use crate::ScriptCall;
use crate::arguments::{id_and_number, id_and_wait, name_and_number, only_id, only_name};
use crate::consoles::{bare_call_of, console_write_of};
use crate::declarations::Declarations;
use crate::files::{lseek_of, mkfs_of, open_of, path_call_of, paths_call_of, read_of, write_of};
use crate::queues::{queue_create_of, queue_get_of, queue_put_of};
use crate::registers::Registers;
use crate::selects::{select_multi_of, select_one_of};
use crate::sockets::{
    socket_accept_of, socket_open_of, socket_recv_of, socket_send_of, socket_shutdown_of,
};
use crate::tasks::{task_create_of, task_delay_of, task_exit_of};
use crate::timers::{timer_add_of, timer_set_of};
use osal_base::OutOfMemory;
use osal_call::CallWord;
use std::alloc::Global;

/// What a line is, by its first word.
#[derive(Clone, Copy)]
pub enum FirstWord {
    /// `osal-app`.
    Header,
    /// `task`.
    Task,
    /// `handler`.
    Handler,
    /// `repeat`.
    Repeat,
    /// `end`.
    End,
    /// The name of a call.
    Call(CallWord),
}

/// The call that a line's arguments make, and the registers with it.
pub fn call_of_words(
    alloc: Global,
    call: CallWord,
    words: &[&[u8]],
    declared: &Declarations,
    begun: usize,
    registers: &mut Registers,
) -> Result<Option<ScriptCall>, OutOfMemory>
    ensures { IfOk result (λ made.
        grammar.call_of_words (number_in declared.now begun) call (map (λ word. word.now) words.now) registers.old
        ≡ option_map (λ call. (call, registers.new)) made) }
{
    match call {
        CallWord::Object(word) => {
            Ok(only_id(words, registers)?.map(|id| ScriptCall::Object { word, id }))
        }
        CallWord::Name(word) => {
            let found = only_name(alloc, words, registers)?;
            Ok(found.map(|(register, name)| ScriptCall::Name {
                word,
                register,
                name,
            }))
        }
        CallWord::Wait(word) => {
            let found = id_and_wait(words, registers)?;
            Ok(found.map(|(id, wait)| ScriptCall::Wait { word, id, wait }))
        }
        CallWord::Value(word) => {
            let found = name_and_number(alloc, words, registers)?;
            Ok(found.map(|(register, name, value)| ScriptCall::Value {
                word,
                register,
                name,
                value,
            }))
        }
        CallWord::Number(word) => {
            let found = id_and_number(words, registers)?;
            Ok(found.map(|(id, number)| ScriptCall::Number { word, id, number }))
        }
        CallWord::Path(word) => path_call_of(alloc, word, words),
        CallWord::Paths(word) => paths_call_of(alloc, word, words),
        CallWord::Bare(word) => Ok(bare_call_of(word, words)),
        CallWord::TaskCreate => task_create_of(alloc, words, declared, begun, registers),
        CallWord::TaskExit => Ok(task_exit_of(words)),
        CallWord::TaskDelay => Ok(task_delay_of(words)),
        CallWord::QueueCreate => queue_create_of(alloc, words, registers),
        CallWord::QueuePut => queue_put_of(alloc, words, registers),
        CallWord::QueueGet => queue_get_of(words, registers),
        CallWord::TimerAdd => timer_add_of(alloc, words, declared, begun, registers),
        CallWord::TimerSet => timer_set_of(words, registers),
        CallWord::Mkfs => mkfs_of(alloc, words),
        CallWord::Open => open_of(alloc, words, registers),
        CallWord::Read => read_of(words, registers),
        CallWord::Write => write_of(alloc, words, registers),
        CallWord::Lseek => lseek_of(words, registers),
        CallWord::SocketOpen => socket_open_of(words, registers),
        CallWord::SocketAccept => socket_accept_of(words, registers),
        CallWord::SocketSend => socket_send_of(alloc, words, registers),
        CallWord::SocketRecv => socket_recv_of(words, registers),
        CallWord::SocketShutdown => socket_shutdown_of(words, registers),
        CallWord::SelectOne => select_one_of(words, registers),
        CallWord::SelectMulti => select_multi_of(alloc, words, registers),
        CallWord::ConsoleWrite => console_write_of(alloc, words),
    }
}
