//! The io part.
ghost use Rattle.std.specs.Prelude.{◌≡◌, false, [], ℕ, IsOk, IfOk, IsTrue, OnErr, ◌==◌};
ghost use Rattle.osal_base.specs.declared.time.Moment.{Moment};
ghost use Rattle.osal_base.specs.Limits.{Fits};
ghost use Rattle.osal_base.specs.Reply.{replied, success};
ghost use Rattle.osal_call.specs.Call.{part_of, takes_memory};
ghost use Rattle.osal_io.specs.Io as of_io;
ghost use Rattle.osal_io.specs.Io.{no_io, is_of_stream};
ghost use Rattle.osal_io.specs.Calls.{io_step, may_wait_or_end};

use crate::Awaited;
use osal_base::{Ack, Limits, Moment, ObjType, OsalId, OutOfMemory, Room};
use osal_call::Call;
use osal_file::Files;
use osal_object::Objects;
use osal_socket::Net;
use std::alloc::Global;
use std::marker::Model;

/// What a stream is.
#[derive(Clone, Copy, Debug, PartialEq, Eq)]
pub enum Stream {
    /// A file on a volume.
    File,
    /// A socket of the process.
    Socket,
}

/// The streams with the calls that wait on them, and the files and sockets behind them.
///
/// A call that is refused changes nothing. A read of a file answers at once, whatever its wait says.
#[derive(Drop)]
pub struct IoPart {
    pub(crate) streams: Objects<Stream, Awaited>,
    pub(crate) files: Files,
    pub(crate) net: Net,
}

impl Model for IoPart {
    ghost use Rattle.osal_io.specs.Io.{IoState};
    ghost use Rattle.std.specs.Coded.{codes};
    ghost use Rattle.osal_object.specs.Code.{objects_code};
    ghost use Rattle.osal_file.specs.contracts.files.Files as of_files;
    ghost use Rattle.osal_socket.specs.contracts.net.Net as of_net;

    ghost Value = { IoState };

    ghost coded = { Prim.hlevel (codes, objects_code, of_files.the_row.coded, of_net.the_row.coded) };

    ghost view = { λ a. record { streams = a.streams; files = a.files; net = a.net } };

    ghost invariant = { λ a. Unit {0} };
}

/// Whether an identifier is one of a stream.
fn is_of_stream(id: OsalId) -> bool
    ensures { result ≡ is_of_stream id }
{
    id.raw() / 65536 == ObjType::Stream.number()
}

impl IoPart {
    /// No streams, file systems and directories, with the memory for as many as the limits say and for a wait of each
    /// task.
    ///
    /// It fails for want of memory alone, and costs the three capacities.
    pub fn open(alloc: Global, limits: &Limits) -> Result<IoPart, OutOfMemory>
        requires { Fits limits.now }
        ensures { IfOk result (λ part. part ≡ no_io limits.now) }
    {
        let files = Files::new(alloc, limits)?;
        let net = Net::new(alloc, limits)?;
        let streams = Objects::new(alloc, ObjType::Stream, limits.streams, limits.tasks)?;
        Ok(IoPart {
            streams,
            files,
            net,
        })
    }

    /// Whether an identifier is one of an active stream, directory or file system. The cost is constant.
    pub fn active(&self, id: OsalId) -> bool
        ensures { result ≡ of_io.is_active self.now id }
    {
        if is_of_stream(id) {
            self.streams.is_active(id)
        } else {
            self.files.active(id)
        }
    }

    /// Makes a call that is the part's own. The bytes of the reply are left in the room.
    ///
    /// `mkfs`, `dir_open`, `socket_open` and `socket_connect` alone take memory, which they ask for last.
    pub fn apply(
        &mut self,
        alloc: Global,
        task: OsalId,
        now: Moment,
        call: &Call,
        room: &mut Room,
    ) -> Result<Ack, OutOfMemory>
        requires { IsTrue (part_of call.now == 7) }
        ensures step { IfOk result (λ ack. (replied ack room.new, self.new) ≡ io_step self.old task now call.now) }
        ensures kept { OnErr result (self.new ≡ self.old) }
        ensures asked_last { OnErr result ((io_step self.old task now call.now).0.answer ≡ success.answer) }
        ensures memory { takes_memory call.now ≡ false → IsOk result }
    {
        room.clear();
        match call {
            Call::Mkfs {
                device,
                label,
                blocks,
            } => self.files.mkfs(alloc, device, label, *blocks),
            Call::DirOpen { path } => self.files.dir_open(alloc, path),
            Call::SocketOpen { kind } => self.socket_open(alloc, *kind),
            Call::SocketConnect { id, port } => self.socket_connect(alloc, *id, *port),
            Call::Read { .. }
            | Call::SocketAccept { .. }
            | Call::SocketRecv { .. }
            | Call::SelectOne { .. }
            | Call::SelectMulti { .. }
            | Call::WaitEnd { .. }
            | Call::WaitAbandon { .. } => Ok(self.apply_waiting(task, now, call, room)),
            _ => Ok(self.apply_within(call, room)),
        }
    }

    /// Makes a call that may wait, or the end of a wait.
    fn apply_waiting(&mut self, task: OsalId, now: Moment, call: &Call, room: &mut Room) -> Ack
        requires own { IsTrue (may_wait_or_end call.now) }
        requires empty { room.old ≡ [] }
        ensures { (replied result room.new, self.new) ≡ io_step self.old task now call.now }
    {
        match call {
            Call::Read { id, n, wait } => self.read(task, now, *id, *n, *wait, room),
            Call::SocketAccept { id, wait } => self.socket_accept(task, now, *id, *wait),
            Call::SocketRecv { id, n, wait } => self.socket_recv(task, now, *id, *n, *wait, room),
            Call::SelectOne { id, mode, wait } => self.select_one(task, now, *id, *mode, *wait),
            Call::SelectMulti {
                reads,
                writes,
                wait,
            } => self.select_multi(task, now, reads.set(), writes.set(), *wait, room),
            Call::WaitEnd { .. } => self.wait_end(task, now, room),
            Call::WaitAbandon { .. } => self.streams.abandon(task),
            _ => unreachable!(),
        }
    }

    /// Makes a call that neither takes memory nor waits.
    fn apply_within(&mut self, call: &Call, room: &mut Room) -> Ack
        requires own { IsTrue (part_of call.now == 7) }
        requires plain { takes_memory call.now ≡ false }
        requires at_once { may_wait_or_end call.now ≡ false }
        requires empty { room.old ≡ [] }
        ensures { (task : ℕ) (now : Moment) → (replied result room.new, self.new) ≡ io_step self.old task now call.now }
    {
        match call {
            Call::Mount { device, path } => self.files.mount(device, path),
            Call::Unmount { path } => self.files.unmount(path),
            Call::Rmfs { device } => self.files.rmfs(device),
            Call::StatVolume { path } => self.files.stat_volume(path, room),
            Call::Open {
                path,
                flags,
                access,
            } => self.open_file(path, *flags, *access),
            Call::Write { id, payload } => self.write(*id, payload),
            Call::Lseek { id, offset, whence } => self.lseek(*id, *offset, *whence),
            Call::Close { id } => self.close(*id),
            Call::Remove { path } => self.files.remove(path),
            Call::Rename { path, to } => self.files.rename(path, to),
            Call::Cp { path, to } => self.files.cp(path, to),
            Call::Stat { path } => self.files.stat(path, room),
            Call::Mkdir { path } => self.files.mkdir(path),
            Call::Rmdir { path } => self.files.rmdir(path),
            Call::DirRead { id } => self.files.dir_read(*id, room),
            Call::DirRewind { id } => self.files.dir_rewind(*id),
            Call::DirClose { id } => self.files.dir_close(*id),
            Call::SocketBind { id, port } => self.socket_bind(*id, *port),
            Call::SocketListen { id } => self.socket_listen(*id),
            Call::SocketSend { id, payload, port } => self.socket_send(*id, payload, *port),
            Call::SocketShutdown { id, how } => self.socket_shutdown(*id, *how),
            Call::Hold { id } => self.hold(*id),
            Call::Release { id } => self.release(*id),
            _ => unreachable!(),
        }
    }

    /// Holds a stream, a directory or a file system, so that it is not removed.
    fn hold(&mut self, id: OsalId) -> Ack
        ensures { (replied result [], self.new) ≡ of_io.hold self.old id }
    {
        if is_of_stream(id) {
            self.streams.hold(id)
        } else {
            self.files.hold(id)
        }
    }

    /// Gives a hold back.
    fn release(&mut self, id: OsalId) -> Ack
        ensures { (replied result [], self.new) ≡ of_io.release self.old id }
    {
        if is_of_stream(id) {
            self.streams.release(id)
        } else {
            self.files.release(id)
        }
    }
}
