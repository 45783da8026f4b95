//! The calls with two arguments.
ghost use Rattle.std.specs.Prelude.{◌≡◌, ◌==◌, ◌∷◌, [], ℕ, false, length, MatchOption};
ghost use Rattle.osal_base.specs.Text.{Text as Said};
ghost use Rattle.osal_call.specs.Call.{part_of, said, text_of};
ghost use Rattle.osal_call.specs.Shapes.{is_id_before, meant};
ghost use Rattle.osal_call.specs.Signature.{spelled, of_word};
ghost use Rattle.osal_call.specs.Signature as words;

use super::CallWord;
use crate::Call;
use crate::argument::Argument::{self, How, Id, Number, Text, Wait};
use osal_base::{Bytes, OsalId, Timeout};

/// The calls with an identifier and a wait.
#[derive(Clone, Copy)]
pub enum WaitWord {
    CountSemTake,
    BinSemTake,
    CondvarWait,
}

/// The calls with a name and a value, whose success gives an identifier.
#[derive(Clone, Copy)]
pub enum ValueWord {
    CountSemCreate,
    BinSemCreate,
}

/// The calls with an identifier and a number.
#[derive(Clone, Copy)]
pub enum NumberWord {
    TaskSetPriority,
    TimebaseTick,
    SocketBind,
    SocketConnect,
}

/// The calls with two paths, or a device and a path.
#[derive(Clone, Copy)]
pub enum PathsWord {
    Mount,
    Rename,
    Cp,
}

/// Each call with an identifier and a wait.
pub(super) const WAITS: [CallWord; 3] = [
    CallWord::Wait(WaitWord::CountSemTake),
    CallWord::Wait(WaitWord::BinSemTake),
    CallWord::Wait(WaitWord::CondvarWait),
];

/// Each call with a name and a value.
pub(super) const VALUES: [CallWord; 2] = [
    CallWord::Value(ValueWord::CountSemCreate),
    CallWord::Value(ValueWord::BinSemCreate),
];

/// Each call with an identifier and a number.
pub(super) const NUMBERS: [CallWord; 4] = [
    CallWord::Number(NumberWord::TaskSetPriority),
    CallWord::Number(NumberWord::TimebaseTick),
    CallWord::Number(NumberWord::SocketBind),
    CallWord::Number(NumberWord::SocketConnect),
];

/// Each call with two paths.
pub(super) const PATHS: [CallWord; 3] = [
    CallWord::Paths(PathsWord::Mount),
    CallWord::Paths(PathsWord::Rename),
    CallWord::Paths(PathsWord::Cp),
];

impl WaitWord {
    /// The call on an object, with a wait.
    pub fn call(self, id: OsalId, wait: Timeout) -> Call
        ensures value { result ≡ words.wait_call self id wait }
        ensures plain { said result ≡ words.wait_call self id wait }
    {
        match self {
            WaitWord::CountSemTake => Call::CountSemTake { id, wait },
            WaitWord::BinSemTake => Call::BinSemTake { id, wait },
            WaitWord::CondvarWait => Call::CondvarWait { id, wait },
        }
    }

    pub(super) fn text(self) -> &'static [u8]
        ensures { result.now ≡ words.wait_text self }
    {
        match self {
            WaitWord::CountSemTake => b"count_sem_take",
            WaitWord::BinSemTake => b"bin_sem_take",
            WaitWord::CondvarWait => b"condvar_wait",
        }
    }
}

impl ValueWord {
    /// The call with a name and a value.
    pub fn call(self, name: Bytes, value: u32) -> Call
        ensures { said result ≡ words.value_call self (text_of name.bytes) value }
    {
        match self {
            ValueWord::CountSemCreate => Call::CountSemCreate { name, value },
            ValueWord::BinSemCreate => Call::BinSemCreate { name, value },
        }
    }

    /// The number of the part whose call it is, whatever the name and the value.
    pub fn part(self) -> u32
        ensures { (name : Said) (value : ℕ) → result ≡ part_of (words.value_call self name value) }
    {
        match self {
            ValueWord::CountSemCreate => 2,
            ValueWord::BinSemCreate => 3,
        }
    }

    pub(super) fn text(self) -> &'static [u8]
        ensures { result.now ≡ words.value_text self }
    {
        match self {
            ValueWord::CountSemCreate => b"count_sem_create",
            ValueWord::BinSemCreate => b"bin_sem_create",
        }
    }
}

impl NumberWord {
    /// The call on an object, with a number.
    pub fn call(self, id: OsalId, number: u32) -> Call
        ensures value { result ≡ words.number_call self id number }
        ensures plain { said result ≡ words.number_call self id number }
    {
        match self {
            NumberWord::TaskSetPriority => Call::TaskSetPriority {
                id,
                priority: number,
            },
            NumberWord::TimebaseTick => Call::TimebaseTick { id, usecs: number },
            NumberWord::SocketBind => Call::SocketBind { id, port: number },
            NumberWord::SocketConnect => Call::SocketConnect { id, port: number },
        }
    }

    pub(super) fn text(self) -> &'static [u8]
        ensures { result.now ≡ words.number_text self }
    {
        match self {
            NumberWord::TaskSetPriority => b"task_set_priority",
            NumberWord::TimebaseTick => b"timebase_tick",
            NumberWord::SocketBind => b"socket_bind",
            NumberWord::SocketConnect => b"socket_connect",
        }
    }
}

impl PathsWord {
    /// The call with two paths, or a device and a path.
    pub fn call(self, path: Bytes, to: Bytes) -> Call
        ensures { said result ≡ words.paths_call self (text_of path.bytes) (text_of to.bytes) }
    {
        match self {
            PathsWord::Mount => Call::Mount {
                device: path,
                path: to,
            },
            PathsWord::Rename => Call::Rename { path, to },
            PathsWord::Cp => Call::Cp { path, to },
        }
    }

    pub(super) fn text(self) -> &'static [u8]
        ensures { result.now ≡ words.paths_text self }
    {
        match self {
            PathsWord::Mount => b"mount",
            PathsWord::Rename => b"rename",
            PathsWord::Cp => b"cp",
        }
    }
}

/// The word and the arguments of a call with two.
pub(crate) fn pair_of(call: &Call) -> Option<(CallWord, Argument, Argument)>
    ensures { MatchOption result ((length (spelled call.now).arguments == 2) ≡ false)
        (λ found. spelled call.now ≡ of_word found.0 (meant found.1 ∷ meant found.2 ∷ [])) }
{
    Some(match call {
        Call::CountSemCreate { name, value } => (
            CallWord::Value(ValueWord::CountSemCreate),
            Text(name),
            Number(u64::from(*value)),
        ),
        Call::BinSemCreate { name, value } => (
            CallWord::Value(ValueWord::BinSemCreate),
            Text(name),
            Number(u64::from(*value)),
        ),
        Call::Mount { device, path } => (
            CallWord::Paths(PathsWord::Mount),
            Text(device),
            Text(path),
        ),
        Call::Rename { path, to } => (CallWord::Paths(PathsWord::Rename), Text(path), Text(to)),
        Call::Cp { path, to } => (CallWord::Paths(PathsWord::Cp), Text(path), Text(to)),
        _ => return object_pair_of(call),
    })
}

/// The word and the arguments of a call with an identifier and one more.
fn object_pair_of(call: &Call) -> Option<(CallWord, Argument, Argument)>
    ensures { MatchOption result (is_id_before 1 (spelled call.now).arguments ≡ false)
        (λ found. spelled call.now ≡ of_word found.0 (meant found.1 ∷ meant found.2 ∷ [])) }
{
    Some(match call {
        Call::CountSemTake { id, wait } => (
            CallWord::Wait(WaitWord::CountSemTake),
            Id(*id),
            Wait(*wait),
        ),
        Call::BinSemTake { id, wait } => (
            CallWord::Wait(WaitWord::BinSemTake),
            Id(*id),
            Wait(*wait),
        ),
        Call::CondvarWait { id, wait } => (
            CallWord::Wait(WaitWord::CondvarWait),
            Id(*id),
            Wait(*wait),
        ),
        Call::TaskSetPriority { id, priority } => (
            CallWord::Number(NumberWord::TaskSetPriority),
            Id(*id),
            Number(u64::from(*priority)),
        ),
        Call::TimebaseTick { id, usecs } => (
            CallWord::Number(NumberWord::TimebaseTick),
            Id(*id),
            Number(u64::from(*usecs)),
        ),
        Call::QueuePut { id, payload } => (CallWord::QueuePut, Id(*id), Text(payload)),
        Call::Write { id, payload } => (CallWord::Write, Id(*id), Text(payload)),
        Call::SocketBind { id, port } => (
            CallWord::Number(NumberWord::SocketBind),
            Id(*id),
            Number(u64::from(*port)),
        ),
        Call::SocketConnect { id, port } => (
            CallWord::Number(NumberWord::SocketConnect),
            Id(*id),
            Number(u64::from(*port)),
        ),
        Call::SocketAccept { id, wait } => (CallWord::SocketAccept, Id(*id), Wait(*wait)),
        Call::SocketShutdown { id, how } => (CallWord::SocketShutdown, Id(*id), How(*how)),
        _ => return None,
    })
}
