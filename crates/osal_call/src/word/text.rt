//! The calls with a text alone: a name, a path, or what is written to the console.
ghost use Rattle.std.specs.Prelude.{◌≡◌, ◌∷◌, [], false, MatchOption};
ghost use Rattle.osal_base.specs.Text.{Text as Said};
ghost use Rattle.osal_call.specs.Argument.{Text};
ghost use Rattle.osal_call.specs.Call.{part_of, said, text_of as of_bytes};
ghost use Rattle.osal_call.specs.Shapes.{is_text};
ghost use Rattle.osal_call.specs.Signature.{spelled, of_word};
ghost use Rattle.osal_call.specs.Signature as words;

use super::CallWord;
use crate::Call;
use osal_base::Bytes;

/// The calls with a name or a path alone, whose success gives an identifier.
#[derive(Clone, Copy)]
pub enum NameWord {
    TaskFind,
    QueueFind,
    CountSemFind,
    BinSemFind,
    MutSemCreate,
    MutSemFind,
    CondvarCreate,
    CondvarFind,
    TimebaseCreate,
    TimebaseFind,
    TimerFind,
    DirOpen,
}

/// The calls with a path or a device alone.
#[derive(Clone, Copy)]
pub enum PathWord {
    Unmount,
    Rmfs,
    StatVolume,
    Remove,
    Stat,
    Mkdir,
    Rmdir,
}

/// Each call with a name alone.
pub(super) const NAMES: [CallWord; 12] = [
    CallWord::Name(NameWord::TaskFind),
    CallWord::Name(NameWord::QueueFind),
    CallWord::Name(NameWord::CountSemFind),
    CallWord::Name(NameWord::BinSemFind),
    CallWord::Name(NameWord::MutSemCreate),
    CallWord::Name(NameWord::MutSemFind),
    CallWord::Name(NameWord::CondvarCreate),
    CallWord::Name(NameWord::CondvarFind),
    CallWord::Name(NameWord::TimebaseCreate),
    CallWord::Name(NameWord::TimebaseFind),
    CallWord::Name(NameWord::TimerFind),
    CallWord::Name(NameWord::DirOpen),
];

/// Each call with a path alone.
pub(super) const PATHS: [CallWord; 7] = [
    CallWord::Path(PathWord::Unmount),
    CallWord::Path(PathWord::Rmfs),
    CallWord::Path(PathWord::StatVolume),
    CallWord::Path(PathWord::Remove),
    CallWord::Path(PathWord::Stat),
    CallWord::Path(PathWord::Mkdir),
    CallWord::Path(PathWord::Rmdir),
];

impl NameWord {
    /// The call with a name.
    pub fn call(self, name: Bytes) -> Call
        ensures { said result ≡ words.name_call self (of_bytes name.bytes) }
    {
        match self {
            NameWord::TaskFind => Call::TaskFind { name },
            NameWord::QueueFind => Call::QueueFind { name },
            NameWord::CountSemFind => Call::CountSemFind { name },
            NameWord::BinSemFind => Call::BinSemFind { name },
            NameWord::MutSemCreate => Call::MutSemCreate { name },
            NameWord::MutSemFind => Call::MutSemFind { name },
            NameWord::CondvarCreate => Call::CondvarCreate { name },
            NameWord::CondvarFind => Call::CondvarFind { name },
            NameWord::TimebaseCreate => Call::TimebaseCreate { name },
            NameWord::TimebaseFind => Call::TimebaseFind { name },
            NameWord::TimerFind => Call::TimerFind { name },
            NameWord::DirOpen => Call::DirOpen { path: name },
        }
    }

    /// The number of the part whose call it is, whatever the name.
    pub fn part(self) -> u32
        ensures { (name : Said) → result ≡ part_of (words.name_call self name) }
    {
        match self {
            NameWord::TaskFind => 0,
            NameWord::QueueFind => 1,
            NameWord::CountSemFind => 2,
            NameWord::BinSemFind => 3,
            NameWord::MutSemCreate | NameWord::MutSemFind => 4,
            NameWord::CondvarCreate | NameWord::CondvarFind => 5,
            NameWord::TimebaseCreate | NameWord::TimebaseFind | NameWord::TimerFind => 6,
            NameWord::DirOpen => 7,
        }
    }

    pub(super) fn text(self) -> &'static [u8]
        ensures { result.now ≡ words.name_text self }
    {
        match self {
            NameWord::TaskFind => b"task_find",
            NameWord::QueueFind => b"queue_find",
            NameWord::CountSemFind => b"count_sem_find",
            NameWord::BinSemFind => b"bin_sem_find",
            NameWord::MutSemCreate => b"mut_sem_create",
            NameWord::MutSemFind => b"mut_sem_find",
            NameWord::CondvarCreate => b"condvar_create",
            NameWord::CondvarFind => b"condvar_find",
            NameWord::TimebaseCreate => b"timebase_create",
            NameWord::TimebaseFind => b"timebase_find",
            NameWord::TimerFind => b"timer_find",
            NameWord::DirOpen => b"dir_open",
        }
    }
}

impl PathWord {
    /// The call with a path or a device.
    pub fn call(self, path: Bytes) -> Call
        ensures { said result ≡ words.path_call self (of_bytes path.bytes) }
    {
        match self {
            PathWord::Unmount => Call::Unmount { path },
            PathWord::Rmfs => Call::Rmfs { device: path },
            PathWord::StatVolume => Call::StatVolume { path },
            PathWord::Remove => Call::Remove { path },
            PathWord::Stat => Call::Stat { path },
            PathWord::Mkdir => Call::Mkdir { path },
            PathWord::Rmdir => Call::Rmdir { path },
        }
    }

    pub(super) fn text(self) -> &'static [u8]
        ensures { result.now ≡ words.path_text self }
    {
        match self {
            PathWord::Unmount => b"unmount",
            PathWord::Rmfs => b"rmfs",
            PathWord::StatVolume => b"stat_volume",
            PathWord::Remove => b"remove",
            PathWord::Stat => b"stat",
            PathWord::Mkdir => b"mkdir",
            PathWord::Rmdir => b"rmdir",
        }
    }
}

/// The word and the argument of a call with a text alone.
pub(crate) fn text_of(call: &Call) -> Option<(CallWord, &Bytes)>
    ensures { MatchOption result
        (is_text (spelled call.now).arguments ≡ false)
        (λ found. spelled call.now ≡ of_word found.0 (Text found.1.now.bytes ∷ [])) }
{
    Some(match call {
        Call::TaskFind { name } => (CallWord::Name(NameWord::TaskFind), name),
        Call::QueueFind { name } => (CallWord::Name(NameWord::QueueFind), name),
        Call::CountSemFind { name } => (CallWord::Name(NameWord::CountSemFind), name),
        Call::BinSemFind { name } => (CallWord::Name(NameWord::BinSemFind), name),
        Call::MutSemCreate { name } => (CallWord::Name(NameWord::MutSemCreate), name),
        Call::MutSemFind { name } => (CallWord::Name(NameWord::MutSemFind), name),
        Call::CondvarCreate { name } => (CallWord::Name(NameWord::CondvarCreate), name),
        Call::CondvarFind { name } => (CallWord::Name(NameWord::CondvarFind), name),
        Call::TimebaseCreate { name } => (CallWord::Name(NameWord::TimebaseCreate), name),
        Call::TimebaseFind { name } => (CallWord::Name(NameWord::TimebaseFind), name),
        Call::TimerFind { name } => (CallWord::Name(NameWord::TimerFind), name),
        Call::DirOpen { path } => (CallWord::Name(NameWord::DirOpen), path),
        Call::Unmount { path } => (CallWord::Path(PathWord::Unmount), path),
        Call::Rmfs { device } => (CallWord::Path(PathWord::Rmfs), device),
        Call::StatVolume { path } => (CallWord::Path(PathWord::StatVolume), path),
        Call::Remove { path } => (CallWord::Path(PathWord::Remove), path),
        Call::Stat { path } => (CallWord::Path(PathWord::Stat), path),
        Call::Mkdir { path } => (CallWord::Path(PathWord::Mkdir), path),
        Call::Rmdir { path } => (CallWord::Path(PathWord::Rmdir), path),
        Call::ConsoleWrite { payload } => (CallWord::ConsoleWrite, payload),
        _ => return None,
    })
}
