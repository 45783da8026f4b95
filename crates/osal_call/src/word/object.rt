//! The calls with an identifier alone.
ghost use Rattle.std.specs.Prelude.{◌≡◌, false, MatchOption};
ghost use Rattle.osal_call.specs.Call.{said};
ghost use Rattle.osal_call.specs.Shapes.{is_id_before};
ghost use Rattle.osal_call.specs.Signature.{spelled, of_object};
ghost use Rattle.osal_call.specs.Signature as words;

use super::CallWord;
use crate::Call;
use osal_base::OsalId;

/// The calls with an identifier alone.
#[derive(Clone, Copy)]
pub enum ObjectWord {
    TaskDelete,
    TaskInfo,
    QueueDelete,
    QueueInfo,
    CountSemGive,
    CountSemDelete,
    CountSemInfo,
    BinSemGive,
    BinSemFlush,
    BinSemDelete,
    BinSemInfo,
    MutSemTake,
    MutSemGive,
    MutSemDelete,
    MutSemInfo,
    CondvarLock,
    CondvarUnlock,
    CondvarSignal,
    CondvarBroadcast,
    CondvarDelete,
    TimebaseFreeRun,
    TimebaseDelete,
    TimerDelete,
    TimerInfo,
    Close,
    DirRead,
    DirRewind,
    DirClose,
    SocketListen,
    Hold,
    Release,
}

/// Each call with an identifier alone.
pub(super) const OBJECTS: [CallWord; 31] = [
    CallWord::Object(ObjectWord::TaskDelete),
    CallWord::Object(ObjectWord::TaskInfo),
    CallWord::Object(ObjectWord::QueueDelete),
    CallWord::Object(ObjectWord::QueueInfo),
    CallWord::Object(ObjectWord::CountSemGive),
    CallWord::Object(ObjectWord::CountSemDelete),
    CallWord::Object(ObjectWord::CountSemInfo),
    CallWord::Object(ObjectWord::BinSemGive),
    CallWord::Object(ObjectWord::BinSemFlush),
    CallWord::Object(ObjectWord::BinSemDelete),
    CallWord::Object(ObjectWord::BinSemInfo),
    CallWord::Object(ObjectWord::MutSemTake),
    CallWord::Object(ObjectWord::MutSemGive),
    CallWord::Object(ObjectWord::MutSemDelete),
    CallWord::Object(ObjectWord::MutSemInfo),
    CallWord::Object(ObjectWord::CondvarLock),
    CallWord::Object(ObjectWord::CondvarUnlock),
    CallWord::Object(ObjectWord::CondvarSignal),
    CallWord::Object(ObjectWord::CondvarBroadcast),
    CallWord::Object(ObjectWord::CondvarDelete),
    CallWord::Object(ObjectWord::TimebaseFreeRun),
    CallWord::Object(ObjectWord::TimebaseDelete),
    CallWord::Object(ObjectWord::TimerDelete),
    CallWord::Object(ObjectWord::TimerInfo),
    CallWord::Object(ObjectWord::Close),
    CallWord::Object(ObjectWord::DirRead),
    CallWord::Object(ObjectWord::DirRewind),
    CallWord::Object(ObjectWord::DirClose),
    CallWord::Object(ObjectWord::SocketListen),
    CallWord::Object(ObjectWord::Hold),
    CallWord::Object(ObjectWord::Release),
];

impl ObjectWord {
    /// The call on an object.
    pub fn call(self, id: OsalId) -> Call
        ensures value { result ≡ words.object_call self id }
        ensures plain { said result ≡ words.object_call self id }
    {
        match self {
            ObjectWord::TaskDelete => Call::TaskDelete { id },
            ObjectWord::TaskInfo => Call::TaskInfo { id },
            ObjectWord::QueueDelete => Call::QueueDelete { id },
            ObjectWord::QueueInfo => Call::QueueInfo { id },
            ObjectWord::CountSemGive => Call::CountSemGive { id },
            ObjectWord::CountSemDelete => Call::CountSemDelete { id },
            ObjectWord::CountSemInfo => Call::CountSemInfo { id },
            ObjectWord::BinSemGive => Call::BinSemGive { id },
            ObjectWord::BinSemFlush => Call::BinSemFlush { id },
            ObjectWord::BinSemDelete => Call::BinSemDelete { id },
            ObjectWord::BinSemInfo => Call::BinSemInfo { id },
            ObjectWord::MutSemTake => Call::MutSemTake { id },
            ObjectWord::MutSemGive => Call::MutSemGive { id },
            ObjectWord::MutSemDelete => Call::MutSemDelete { id },
            ObjectWord::MutSemInfo => Call::MutSemInfo { id },
            ObjectWord::CondvarLock => Call::CondvarLock { id },
            ObjectWord::CondvarUnlock => Call::CondvarUnlock { id },
            ObjectWord::CondvarSignal => Call::CondvarSignal { id },
            ObjectWord::CondvarBroadcast => Call::CondvarBroadcast { id },
            ObjectWord::CondvarDelete => Call::CondvarDelete { id },
            ObjectWord::TimebaseFreeRun => Call::TimebaseFreeRun { id },
            ObjectWord::TimebaseDelete => Call::TimebaseDelete { id },
            ObjectWord::TimerDelete => Call::TimerDelete { id },
            ObjectWord::TimerInfo => Call::TimerInfo { id },
            ObjectWord::Close => Call::Close { id },
            ObjectWord::DirRead => Call::DirRead { id },
            ObjectWord::DirRewind => Call::DirRewind { id },
            ObjectWord::DirClose => Call::DirClose { id },
            ObjectWord::SocketListen => Call::SocketListen { id },
            ObjectWord::Hold => Call::Hold { id },
            ObjectWord::Release => Call::Release { id },
        }
    }

    pub(crate) fn text(self) -> &'static [u8]
        ensures { result.now ≡ words.object_text self }
    {
        match self {
            ObjectWord::TaskDelete => b"task_delete",
            ObjectWord::TaskInfo => b"task_info",
            ObjectWord::QueueDelete => b"queue_delete",
            ObjectWord::QueueInfo => b"queue_info",
            ObjectWord::CountSemGive => b"count_sem_give",
            ObjectWord::CountSemDelete => b"count_sem_delete",
            ObjectWord::CountSemInfo => b"count_sem_info",
            ObjectWord::BinSemGive => b"bin_sem_give",
            ObjectWord::BinSemFlush => b"bin_sem_flush",
            ObjectWord::BinSemDelete => b"bin_sem_delete",
            ObjectWord::BinSemInfo => b"bin_sem_info",
            ObjectWord::MutSemTake => b"mut_sem_take",
            ObjectWord::MutSemGive => b"mut_sem_give",
            ObjectWord::MutSemDelete => b"mut_sem_delete",
            ObjectWord::MutSemInfo => b"mut_sem_info",
            ObjectWord::CondvarLock => b"condvar_lock",
            ObjectWord::CondvarUnlock => b"condvar_unlock",
            ObjectWord::CondvarSignal => b"condvar_signal",
            ObjectWord::CondvarBroadcast => b"condvar_broadcast",
            ObjectWord::CondvarDelete => b"condvar_delete",
            ObjectWord::TimebaseFreeRun => b"timebase_free_run",
            ObjectWord::TimebaseDelete => b"timebase_delete",
            ObjectWord::TimerDelete => b"timer_delete",
            ObjectWord::TimerInfo => b"timer_info",
            ObjectWord::Close => b"close",
            ObjectWord::DirRead => b"dir_read",
            ObjectWord::DirRewind => b"dir_rewind",
            ObjectWord::DirClose => b"dir_close",
            ObjectWord::SocketListen => b"socket_listen",
            ObjectWord::Hold => b"hold",
            ObjectWord::Release => b"release",
        }
    }
}

/// The word and the argument of a call with an identifier alone.
pub(crate) fn object_of(call: &Call) -> Option<(ObjectWord, OsalId)>
    ensures { MatchOption result
        (is_id_before 0 (spelled call.now).arguments ≡ false)
        (λ found. spelled call.now ≡ of_object found.0 found.1) }
{
    Some(match call {
        Call::TaskDelete { id } => (ObjectWord::TaskDelete, *id),
        Call::TaskInfo { id } => (ObjectWord::TaskInfo, *id),
        Call::QueueDelete { id } => (ObjectWord::QueueDelete, *id),
        Call::QueueInfo { id } => (ObjectWord::QueueInfo, *id),
        Call::CountSemGive { id } => (ObjectWord::CountSemGive, *id),
        Call::CountSemDelete { id } => (ObjectWord::CountSemDelete, *id),
        Call::CountSemInfo { id } => (ObjectWord::CountSemInfo, *id),
        Call::BinSemGive { id } => (ObjectWord::BinSemGive, *id),
        Call::BinSemFlush { id } => (ObjectWord::BinSemFlush, *id),
        Call::BinSemDelete { id } => (ObjectWord::BinSemDelete, *id),
        Call::BinSemInfo { id } => (ObjectWord::BinSemInfo, *id),
        Call::MutSemTake { id } => (ObjectWord::MutSemTake, *id),
        Call::MutSemGive { id } => (ObjectWord::MutSemGive, *id),
        Call::MutSemDelete { id } => (ObjectWord::MutSemDelete, *id),
        Call::MutSemInfo { id } => (ObjectWord::MutSemInfo, *id),
        Call::CondvarLock { id } => (ObjectWord::CondvarLock, *id),
        Call::CondvarUnlock { id } => (ObjectWord::CondvarUnlock, *id),
        Call::CondvarSignal { id } => (ObjectWord::CondvarSignal, *id),
        Call::CondvarBroadcast { id } => (ObjectWord::CondvarBroadcast, *id),
        Call::CondvarDelete { id } => (ObjectWord::CondvarDelete, *id),
        Call::TimebaseFreeRun { id } => (ObjectWord::TimebaseFreeRun, *id),
        Call::TimebaseDelete { id } => (ObjectWord::TimebaseDelete, *id),
        Call::TimerDelete { id } => (ObjectWord::TimerDelete, *id),
        Call::TimerInfo { id } => (ObjectWord::TimerInfo, *id),
        Call::Close { id } => (ObjectWord::Close, *id),
        Call::DirRead { id } => (ObjectWord::DirRead, *id),
        Call::DirRewind { id } => (ObjectWord::DirRewind, *id),
        Call::DirClose { id } => (ObjectWord::DirClose, *id),
        Call::SocketListen { id } => (ObjectWord::SocketListen, *id),
        Call::Hold { id } => (ObjectWord::Hold, *id),
        Call::Release { id } => (ObjectWord::Release, *id),
        _ => return None,
    })
}
