//! What may stand in a handler.
ghost use Rattle.std.specs.Prelude.{◌≡◌};
ghost use Rattle.osal_price.specs.Handlers as handlers;

use osal_call::{CallWord, NumberWord, ObjectWord, WaitWord};
use osal_line::{BodyKind, ScriptCall};

/// Whether a kind of body is a handler.
pub fn is_handler(kind: BodyKind) -> bool
    ensures { result ≡ handlers.is_handler kind }
{
    match kind {
        BodyKind::Handler => true,
        BodyKind::Task => false,
    }
}

/// Whether only a task may make the call.
pub fn needs_task(call: CallWord) -> bool
    ensures { result ≡ handlers.needs_task call }
{
    match call {
        CallWord::TaskCreate | CallWord::TaskExit | CallWord::TaskDelay => true,
        CallWord::Object(word) => object_waits(word),
        CallWord::Wait(word) => matches!(word, WaitWord::CondvarWait),
        CallWord::Number(word) => matches!(word, NumberWord::TimebaseTick),
        CallWord::Name(_)
        | CallWord::Value(_)
        | CallWord::Path(_)
        | CallWord::Paths(_)
        | CallWord::Bare(_)
        | CallWord::QueueCreate
        | CallWord::QueuePut
        | CallWord::QueueGet
        | CallWord::TimerAdd
        | CallWord::TimerSet
        | CallWord::Mkfs
        | CallWord::Open
        | CallWord::Read
        | CallWord::Write
        | CallWord::Lseek
        | CallWord::SocketOpen
        | CallWord::SocketAccept
        | CallWord::SocketSend
        | CallWord::SocketRecv
        | CallWord::SocketShutdown
        | CallWord::SelectOne
        | CallWord::SelectMulti
        | CallWord::ConsoleWrite => false,
    }
}

/// Whether a call with an identifier alone may wait, and then without a deadline.
pub(crate) fn object_waits(word: ObjectWord) -> bool
    ensures { result ≡ handlers.object_waits word }
{
    matches!(word, ObjectWord::MutSemTake | ObjectWord::CondvarLock)
}

/// Whether the call may wait as it stands: it can, and its wait is not `check`.
pub fn may_wait(call: &ScriptCall) -> bool
    ensures { result ≡ handlers.may_wait call.now }
{
    match call {
        ScriptCall::Wait { wait, .. }
        | ScriptCall::QueueGet { wait, .. }
        | ScriptCall::Read { wait, .. }
        | ScriptCall::SocketAccept { wait, .. }
        | ScriptCall::SocketRecv { wait, .. }
        | ScriptCall::SelectOne { wait, .. }
        | ScriptCall::SelectMulti { wait, .. } => !wait.is_check(),
        _ => false,
    }
}
