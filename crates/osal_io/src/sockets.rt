//! The calls on sockets.
ghost use Rattle.std.specs.Prelude.{◌≡◌, [], IfOk, OnErr};
ghost use Rattle.osal_base.specs.Reply.{replied, success};
ghost use Rattle.osal_socket.specs.Net as of_net;
ghost use Rattle.osal_io.specs.Sockets as of_sockets;

use crate::{Awaited, IoPart, Stream};
use osal_base::{
    Ack, Answer, Bytes, How, Moment, OsalId, OutOfMemory, Room, SockKind, Status, Timeout,
};
use std::alloc::Global;

impl IoPart {
    /// `OS_SocketOpen`: the stream of a new socket. It takes the memory for the datagrams of one that carries them.
    pub(crate) fn socket_open(&mut self, alloc: Global, kind: SockKind) -> Result<Ack, OutOfMemory>
        ensures step { IfOk result (λ ack. (replied ack [], self.new) ≡ of_sockets.socket_open self.old kind) }
        ensures kept { OnErr result (self.new ≡ self.old) }
        ensures asked_last { OnErr result ((of_sockets.socket_open self.old kind).0.answer ≡ success.answer) }
    {
        let id = self.next_stream();
        let ack = self.net.socket_open(alloc, kind, id)?;
        self.add_stream(Stream::Socket, ack.answer);
        Ok(ack)
    }

    /// `OS_SocketBind`: gives a socket a port of its own.
    pub(crate) fn socket_bind(&mut self, id: OsalId, port: u32) -> Ack
        ensures { (replied result [], self.new) ≡ of_sockets.socket_bind self.old id port }
    {
        if is_no_port(port) {
            return Ack::refused(Status::ErrInvalidArgument);
        }
        if !self.streams.is_active(id) {
            return Ack::refused(Status::ErrInvalidId);
        }
        self.net.socket_bind(id, port)
    }

    /// `OS_SocketListen`: lets others connect to a socket.
    pub(crate) fn socket_listen(&mut self, id: OsalId) -> Ack
        ensures { (replied result [], self.new) ≡ of_sockets.socket_listen self.old id }
    {
        if !self.streams.is_active(id) {
            return Ack::refused(Status::ErrInvalidId);
        }
        self.net.socket_listen(id)
    }

    /// `OS_SocketConnect`: connects a socket to the one that listens at a port. It takes the memory of the connection.
    pub(crate) fn socket_connect(
        &mut self,
        alloc: Global,
        id: OsalId,
        port: u32,
    ) -> Result<Ack, OutOfMemory>
        ensures step { IfOk result (λ ack. (replied ack [], self.new) ≡ of_sockets.socket_connect self.old id port) }
        ensures kept { OnErr result (self.new ≡ self.old) }
        ensures asked_last { OnErr result ((of_sockets.socket_connect self.old id port).0.answer ≡ success.answer) }
    {
        if is_no_port(port) {
            return Ok(Ack::refused(Status::ErrInvalidArgument));
        }
        if !self.streams.is_active(id) {
            return Ok(Ack::refused(Status::ErrInvalidId));
        }
        self.net.socket_connect(alloc, id, port)
    }

    /// `OS_SocketAccept`: the stream of the oldest connection that waits at a socket.
    pub(crate) fn socket_accept(
        &mut self,
        task: OsalId,
        now: Moment,
        id: OsalId,
        wait: Timeout,
    ) -> Ack
        ensures { (replied result [], self.new) ≡ of_sockets.socket_accept self.old task now id wait }
    {
        let ack = self.accept_now(id, wait);
        match ack.answer {
            Answer::Waits => self.begin_on(task, now, Awaited::Accept { id }, id, wait),
            _ => ack,
        }
    }

    /// Accepts, and answers `Waits` where it has to wait.
    pub(crate) fn accept_now(&mut self, id: OsalId, wait: Timeout) -> Ack
        ensures { (replied result [], self.new) ≡ of_sockets.accept_now self.old id wait }
    {
        if !self.streams.is_active(id) {
            return Ack::refused(Status::ErrInvalidId);
        }
        let stream = self.next_stream();
        let ack = self.net.socket_accept(id, wait, stream);
        self.add_stream(Stream::Socket, ack.answer);
        ack
    }

    /// `OS_SocketSendTo`: a datagram to the socket that has a port.
    pub(crate) fn socket_send(&mut self, id: OsalId, payload: &Bytes, port: u32) -> Ack
        ensures { (replied result [], self.new) ≡ of_sockets.socket_send self.old id payload.now.bytes port }
    {
        if payload.as_slice().is_empty() || 1024 < payload.as_slice().len() {
            return Ack::refused(Status::ErrInvalidSize);
        }
        if is_no_port(port) {
            return Ack::refused(Status::ErrInvalidArgument);
        }
        if !self.streams.is_active(id) {
            return Ack::refused(Status::ErrInvalidId);
        }
        self.net.socket_send(id, payload, port)
    }

    /// `OS_SocketRecvFrom`: the first of the datagrams that wait at a socket.
    pub(crate) fn socket_recv(
        &mut self,
        task: OsalId,
        now: Moment,
        id: OsalId,
        n: u32,
        wait: Timeout,
        room: &mut Room,
    ) -> Ack
        ensures { (replied result room.new, self.new) ≡ of_sockets.socket_recv self.old task now id n wait }
    {
        let ack = self.receive_now(id, n, wait, room);
        match ack.answer {
            Answer::Waits => {
                room.clear();
                self.begin_on(task, now, Awaited::Receive { id, n }, id, wait)
            }
            _ => ack,
        }
    }

    /// Receives, and answers `Waits` where it has to wait.
    pub(crate) fn receive_now(&mut self, id: OsalId, n: u32, wait: Timeout, room: &mut Room) -> Ack
        ensures { (replied result room.new, self.new) ≡ of_sockets.receive_now self.old id n wait }
    {
        room.clear();
        if n == 0 || 1024 < n {
            return Ack::refused(Status::ErrInvalidSize);
        }
        if !self.streams.is_active(id) {
            return Ack::refused(Status::ErrInvalidId);
        }
        self.net.socket_recv(id, n, wait, room)
    }

    /// `OS_SocketShutdown`: shuts a way of a connection, or both.
    pub(crate) fn socket_shutdown(&mut self, id: OsalId, how: How) -> Ack
        ensures { (replied result [], self.new) ≡ of_sockets.socket_shutdown self.old id how }
    {
        if !self.streams.is_active(id) {
            return Ack::refused(Status::ErrInvalidId);
        }
        self.net.socket_shutdown(id, how)
    }
}

// Whether a number is that of no port.
fn is_no_port(port: u32) -> bool
    ensures { result ≡ of_net.is_no_port port }
{
    port == 0 || 65535 < port
}
