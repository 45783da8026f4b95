//! The calls of the machine, and the entries that they make.
ghost use Rattle.std.specs.Prelude.{◌≡◌, ◌≤◌};
ghost use Rattle.osal_call.specs.Call as of_call;

use osal_base::{
    Access, Bytes, How, Mode, Moment, OpenFlags, OsalId, Reply, SockKind, Timeout, Whence,
};
use osal_select::BoxedSet;

/// A call with its arguments.
#[derive(Drop)]
pub enum Call {
    /// `OS_TaskCreate`.
    TaskCreate {
        name: Bytes,
        body: u32,
        stack: u32,
        priority: u32,
    },
    /// `OS_TaskExit`.
    TaskExit,
    /// `OS_TaskDelete`.
    TaskDelete {
        id: OsalId,
    },
    /// `OS_TaskSetPriority`.
    TaskSetPriority {
        id: OsalId,
        priority: u32,
    },
    /// `OS_TaskGetIdByName`.
    TaskFind {
        name: Bytes,
    },
    /// `OS_TaskGetInfo`.
    TaskInfo {
        id: OsalId,
    },
    /// `OS_TaskDelay`.
    TaskDelay {
        ms: u32,
    },
    /// The place at which a task learns whether it goes on.
    Checkpoint,
    /// `OS_QueueCreate`.
    QueueCreate {
        name: Bytes,
        depth: u32,
        size: u32,
    },
    /// `OS_QueueDelete`.
    QueueDelete {
        id: OsalId,
    },
    /// `OS_QueuePut`.
    QueuePut {
        id: OsalId,
        payload: Bytes,
    },
    /// `OS_QueueGet`, with room for `n` bytes.
    QueueGet {
        id: OsalId,
        n: u32,
        wait: Timeout,
    },
    /// `OS_QueueGetIdByName`.
    QueueFind {
        name: Bytes,
    },
    /// `OS_QueueGetInfo`.
    QueueInfo {
        id: OsalId,
    },
    /// `OS_CountSemCreate`.
    CountSemCreate {
        name: Bytes,
        value: u32,
    },
    /// `OS_CountSemGive`.
    CountSemGive {
        id: OsalId,
    },
    /// `OS_CountSemTake` and `OS_CountSemTimedWait`.
    CountSemTake {
        id: OsalId,
        wait: Timeout,
    },
    /// `OS_CountSemDelete`.
    CountSemDelete {
        id: OsalId,
    },
    /// `OS_CountSemGetIdByName`.
    CountSemFind {
        name: Bytes,
    },
    /// `OS_CountSemGetInfo`.
    CountSemInfo {
        id: OsalId,
    },
    /// `OS_BinSemCreate`.
    BinSemCreate {
        name: Bytes,
        value: u32,
    },
    /// `OS_BinSemGive`.
    BinSemGive {
        id: OsalId,
    },
    /// `OS_BinSemFlush`.
    BinSemFlush {
        id: OsalId,
    },
    /// `OS_BinSemTake` and `OS_BinSemTimedWait`.
    BinSemTake {
        id: OsalId,
        wait: Timeout,
    },
    /// `OS_BinSemDelete`.
    BinSemDelete {
        id: OsalId,
    },
    /// `OS_BinSemGetIdByName`.
    BinSemFind {
        name: Bytes,
    },
    /// `OS_BinSemGetInfo`.
    BinSemInfo {
        id: OsalId,
    },
    /// `OS_MutSemCreate`.
    MutSemCreate {
        name: Bytes,
    },
    /// `OS_MutSemTake`.
    MutSemTake {
        id: OsalId,
    },
    /// `OS_MutSemGive`.
    MutSemGive {
        id: OsalId,
    },
    /// `OS_MutSemDelete`.
    MutSemDelete {
        id: OsalId,
    },
    /// `OS_MutSemGetIdByName`.
    MutSemFind {
        name: Bytes,
    },
    /// `OS_MutSemGetInfo`.
    MutSemInfo {
        id: OsalId,
    },
    /// `OS_CondVarCreate`.
    CondvarCreate {
        name: Bytes,
    },
    /// `OS_CondVarLock`.
    CondvarLock {
        id: OsalId,
    },
    /// `OS_CondVarUnlock`.
    CondvarUnlock {
        id: OsalId,
    },
    /// `OS_CondVarSignal`.
    CondvarSignal {
        id: OsalId,
    },
    /// `OS_CondVarBroadcast`.
    CondvarBroadcast {
        id: OsalId,
    },
    /// `OS_CondVarWait` and `OS_CondVarTimedWait`.
    CondvarWait {
        id: OsalId,
        wait: Timeout,
    },
    /// `OS_CondVarDelete`.
    CondvarDelete {
        id: OsalId,
    },
    /// `OS_CondVarGetIdByName`.
    CondvarFind {
        name: Bytes,
    },
    /// `OS_TimeBaseCreate`.
    TimebaseCreate {
        name: Bytes,
    },
    /// The external tick of a timebase.
    TimebaseTick {
        id: OsalId,
        usecs: u32,
    },
    /// `OS_TimeBaseGetFreeRun`.
    TimebaseFreeRun {
        id: OsalId,
    },
    /// `OS_TimeBaseDelete`.
    TimebaseDelete {
        id: OsalId,
    },
    /// `OS_TimeBaseGetIdByName`.
    TimebaseFind {
        name: Bytes,
    },
    /// `OS_TimerAdd`, with the number of the handler that its firings tell.
    TimerAdd {
        name: Bytes,
        timebase: OsalId,
        handler: u32,
    },
    /// `OS_TimerSet`, in microseconds.
    TimerSet {
        id: OsalId,
        start: u32,
        interval: u32,
    },
    /// `OS_TimerDelete`.
    TimerDelete {
        id: OsalId,
    },
    /// `OS_TimerGetIdByName`.
    TimerFind {
        name: Bytes,
    },
    /// `OS_TimerGetInfo`.
    TimerInfo {
        id: OsalId,
    },
    /// Virtual time goes on to a later moment, in milliseconds.
    Advance {
        to: u64,
    },
    /// `OS_mkfs`: a RAM volume of so many blocks of 512 bytes.
    Mkfs {
        device: Bytes,
        label: Bytes,
        blocks: u32,
    },
    /// `OS_mount`.
    Mount {
        device: Bytes,
        path: Bytes,
    },
    /// `OS_unmount`.
    Unmount {
        path: Bytes,
    },
    /// `OS_rmfs`.
    Rmfs {
        device: Bytes,
    },
    /// `OS_FileSysStatVolume`.
    StatVolume {
        path: Bytes,
    },
    /// `OS_OpenCreate`.
    Open {
        path: Bytes,
        flags: OpenFlags,
        access: Access,
    },
    /// `OS_read` and `OS_TimedRead`, with room for `n` bytes.
    Read {
        id: OsalId,
        n: u32,
        wait: Timeout,
    },
    /// `OS_write`.
    Write {
        id: OsalId,
        payload: Bytes,
    },
    /// `OS_lseek`.
    Lseek {
        id: OsalId,
        offset: i64,
        whence: Whence,
    },
    /// `OS_close`.
    Close {
        id: OsalId,
    },
    /// `OS_remove`.
    Remove {
        path: Bytes,
    },
    /// `OS_rename`.
    Rename {
        path: Bytes,
        to: Bytes,
    },
    /// `OS_cp`.
    Cp {
        path: Bytes,
        to: Bytes,
    },
    /// `OS_stat`.
    Stat {
        path: Bytes,
    },
    /// `OS_mkdir`.
    Mkdir {
        path: Bytes,
    },
    /// `OS_rmdir`.
    Rmdir {
        path: Bytes,
    },
    /// `OS_DirectoryOpen`.
    DirOpen {
        path: Bytes,
    },
    /// `OS_DirectoryRead`.
    DirRead {
        id: OsalId,
    },
    /// `OS_DirectoryRewind`.
    DirRewind {
        id: OsalId,
    },
    /// `OS_DirectoryClose`.
    DirClose {
        id: OsalId,
    },
    /// `OS_SocketOpen`.
    SocketOpen {
        kind: SockKind,
    },
    /// `OS_SocketBind`, to a port of the process.
    SocketBind {
        id: OsalId,
        port: u32,
    },
    /// `OS_SocketListen`.
    SocketListen {
        id: OsalId,
    },
    /// `OS_SocketConnect`, to the socket that listens at a port.
    SocketConnect {
        id: OsalId,
        port: u32,
    },
    /// `OS_SocketAccept`.
    SocketAccept {
        id: OsalId,
        wait: Timeout,
    },
    /// `OS_SocketSendTo`, to the socket that has a port.
    SocketSend {
        id: OsalId,
        payload: Bytes,
        port: u32,
    },
    /// `OS_SocketRecvFrom`, of `n` bytes at most.
    SocketRecv {
        id: OsalId,
        n: u32,
        wait: Timeout,
    },
    /// `OS_SocketShutdown`.
    SocketShutdown {
        id: OsalId,
        how: How,
    },
    /// `OS_SelectSingle`.
    SelectOne {
        id: OsalId,
        mode: Mode,
        wait: Timeout,
    },
    /// `OS_SelectMultiple`.
    SelectMulti {
        reads: BoxedSet,
        writes: BoxedSet,
        wait: Timeout,
    },
    /// `OS_printf` and `OS_ConsoleWrite`, with the bytes as they stand.
    ConsoleWrite {
        payload: Bytes,
    },
    /// `OS_printf_enable`.
    ConsoleEnable,
    /// `OS_printf_disable`.
    ConsoleDisable,
    /// Takes at most `n` pending bytes out of the console, the oldest first.
    Drain {
        n: u32,
    },
    /// Holds an object, so that it is not removed.
    Hold {
        id: OsalId,
    },
    /// Gives a hold back.
    Release {
        id: OsalId,
    },
    /// Ends the open wait of the task in the part of that number.
    WaitEnd {
        part: u32,
    },
    /// Gives the open wait of the task in the part of that number up.
    WaitAbandon {
        part: u32,
    },
}

/// One call of one task, with the moment at which it was made and its reply.
#[derive(Drop)]
pub struct Entry {
    /// 0 for the machine's own calls, else 1 plus the slot of the task.
    pub caller: u32,
    pub task: OsalId,
    pub now: Moment,
    pub call: Call,
    pub reply: Reply,
}

/// The number of the part that has the objects of a type; 0 where no part has any.
fn part_of_type(kind: u32) -> u32
    ensures value { result ≡ of_call.part_of_type kind }
    ensures within { result ≤ 8 }
{
    match kind {
        2 => 1,
        3 => 2,
        4 => 3,
        5 => 4,
        13 => 5,
        8 | 9 => 6,
        6 | 7 | 11 => 7,
        12 => 8,
        _ => 0,
    }
}

/// The number of the part that has an identifier's object.
pub fn part_of_id(id: OsalId) -> u32
    ensures value { result ≡ of_call.part_of_id id }
    ensures within { result ≤ 8 }
{
    part_of_type(id.raw() / 65536)
}

/// The number of the part whose call it is: 0 for tasks, 1 for queues, 2 and 3 for counting and binary semaphores,
/// 4 for mutexes, 5 for condition variables, 6 for time, 7 for files and sockets, 8 for the console.
///
/// A hold and a release go to the part of the identifier's type, the end of a wait to the part of its number.
/// What has no part goes to part 0.
pub fn part_of(call: &Call) -> u32
    ensures value { result ≡ of_call.part_of call.now }
    ensures within { result ≤ 8 }
{
    match call {
        Call::TaskCreate { .. }
        | Call::TaskExit
        | Call::TaskDelete { .. }
        | Call::TaskSetPriority { .. }
        | Call::TaskFind { .. }
        | Call::TaskInfo { .. }
        | Call::TaskDelay { .. }
        | Call::Checkpoint => 0,
        Call::QueueCreate { .. }
        | Call::QueueDelete { .. }
        | Call::QueuePut { .. }
        | Call::QueueGet { .. }
        | Call::QueueFind { .. }
        | Call::QueueInfo { .. } => 1,
        Call::CountSemCreate { .. }
        | Call::CountSemGive { .. }
        | Call::CountSemTake { .. }
        | Call::CountSemDelete { .. }
        | Call::CountSemFind { .. }
        | Call::CountSemInfo { .. } => 2,
        Call::BinSemCreate { .. }
        | Call::BinSemGive { .. }
        | Call::BinSemFlush { .. }
        | Call::BinSemTake { .. }
        | Call::BinSemDelete { .. }
        | Call::BinSemFind { .. }
        | Call::BinSemInfo { .. } => 3,
        Call::MutSemCreate { .. }
        | Call::MutSemTake { .. }
        | Call::MutSemGive { .. }
        | Call::MutSemDelete { .. }
        | Call::MutSemFind { .. }
        | Call::MutSemInfo { .. } => 4,
        Call::CondvarCreate { .. }
        | Call::CondvarLock { .. }
        | Call::CondvarUnlock { .. }
        | Call::CondvarSignal { .. }
        | Call::CondvarBroadcast { .. }
        | Call::CondvarWait { .. }
        | Call::CondvarDelete { .. }
        | Call::CondvarFind { .. } => 5,
        Call::TimebaseCreate { .. }
        | Call::TimebaseTick { .. }
        | Call::TimebaseFreeRun { .. }
        | Call::TimebaseDelete { .. }
        | Call::TimebaseFind { .. }
        | Call::TimerAdd { .. }
        | Call::TimerSet { .. }
        | Call::TimerDelete { .. }
        | Call::TimerFind { .. }
        | Call::TimerInfo { .. }
        | Call::Advance { .. } => 6,
        Call::Mkfs { .. }
        | Call::Mount { .. }
        | Call::Unmount { .. }
        | Call::Rmfs { .. }
        | Call::StatVolume { .. }
        | Call::Open { .. }
        | Call::Read { .. }
        | Call::Write { .. }
        | Call::Lseek { .. }
        | Call::Close { .. }
        | Call::Remove { .. }
        | Call::Rename { .. }
        | Call::Cp { .. }
        | Call::Stat { .. }
        | Call::Mkdir { .. }
        | Call::Rmdir { .. }
        | Call::DirOpen { .. }
        | Call::DirRead { .. }
        | Call::DirRewind { .. }
        | Call::DirClose { .. }
        | Call::SocketOpen { .. }
        | Call::SocketBind { .. }
        | Call::SocketListen { .. }
        | Call::SocketConnect { .. }
        | Call::SocketAccept { .. }
        | Call::SocketSend { .. }
        | Call::SocketRecv { .. }
        | Call::SocketShutdown { .. }
        | Call::SelectOne { .. }
        | Call::SelectMulti { .. } => 7,
        Call::ConsoleWrite { .. }
        | Call::ConsoleEnable
        | Call::ConsoleDisable
        | Call::Drain { .. } => 8,
        Call::Hold { id } | Call::Release { id } => part_of_id(*id),
        Call::WaitEnd { part } | Call::WaitAbandon { part } => { if 8 < *part { 0 } else { *part } }
    }
}
