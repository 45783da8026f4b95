//! Connecting, accepting and shutting down.
ghost use Rattle.std.specs.Prelude.{◌≡◌, ◌<◌, ◌++◌, ◌∷◌, [], drop, length, slice_get, Some, IfOk, IsTrue, OnErr};
ghost use Rattle.osal_base.specs.Reply.{replied, success};
ghost use Rattle.osal_socket.specs.Connecting as of_connecting;
ghost use Rattle.osal_socket.specs.Found as of_found;
ghost use Rattle.osal_socket.specs.Net as of_net;

use crate::Net;
use crate::net::places::{add_connection, connection_at, shut_at, slot_at_port};
use crate::net::{finds_nothing, is_no_port};
use crate::side::Side;
use crate::socket::Socket;
use osal_base::{Ack, How, OsalId, OutOfMemory, SockKind, Status, Timeout};
use osal_slots::{in_slot, slot_among};
use std::alloc::Global;

impl Net {
    /// `OS_SocketConnect`: connects a socket to the one that listens at a port; the other end waits there to be
    /// accepted.
    ///
    /// Refused are, in this order, a port of 0 or above 65,535 (`OS_ERR_INVALID_ARGUMENT`), a stream that is no socket
    /// for connections (`OS_ERR_INCORRECT_OBJ_TYPE`), one that is bound or connected (`OS_ERR_INCORRECT_OBJ_STATE`),
    /// and a port at which nobody listens, or where 8 connections wait (both `OS_ERROR`). It then takes the memory for
    /// 4,096 bytes each way. It looks at each socket and at each connection at most.
    pub fn socket_connect(
        &mut self,
        alloc: Global,
        id: OsalId,
        port: u32,
    ) -> Result<Ack, OutOfMemory>
        ensures step { IfOk result (λ ack. (replied ack [], self.new) ≡ of_connecting.socket_connect self.old id port) }
        ensures kept { OnErr result (self.new ≡ self.old) }
        ensures asked_last { OnErr result ((of_connecting.socket_connect self.old id port).0.answer ≡ success.answer) }
    {
        if is_no_port(port) {
            return Ok(Ack::refused(Status::ErrInvalidArgument));
        }
        match in_slot(&self.sockets, id) {
            None | Some(Socket::Datagrams { .. }) => {
                return Ok(Ack::refused(Status::ErrIncorrectObjType));
            }
            Some(Socket::Fresh) => {}
            Some(_) => return Ok(Ack::refused(Status::ErrIncorrectObjState)),
        }
        let Some(listener) = slot_at_port(&self.sockets, SockKind::Stream, port) else {
            return Ok(Ack::refused(Status::Error));
        };
        if !takes_more(&self.sockets[listener]) {
            return Ok(Ack::refused(Status::Error));
        }
        let number = add_connection(alloc, &mut self.connections)?;
        wait_at(&mut self.sockets, listener, number);
        self.put(
            id,
            Socket::Connected {
                connection: number,
                side: Side::Client,
            },
        );
        Ok(Ack::success())
    }

    /// `OS_SocketAccept`: takes the oldest of the connections that wait at a socket, under the identifier that its
    /// stream gets, and gives that.
    ///
    /// Refused are, in this order, a stream that is no socket for connections (`OS_ERR_INCORRECT_OBJ_TYPE`), one that
    /// does not listen (`OS_ERR_INCORRECT_OBJ_STATE`), where a connection waits an accept for which there is no
    /// identifier (`OS_ERR_NO_FREE_IDS`), and where none does one that may not wait (`OS_ERROR_TIMEOUT`); another has
    /// to wait. Its cost is constant.
    pub fn socket_accept(&mut self, id: OsalId, wait: Timeout, stream: Option<OsalId>) -> Ack
        ensures { (replied result [], self.new) ≡ of_connecting.socket_accept self.old id wait stream }
    {
        let pending = match in_slot(&self.sockets, id) {
            None | Some(Socket::Datagrams { .. }) => {
                return Ack::refused(Status::ErrIncorrectObjType);
            }
            Some(Socket::Listens { pending, .. }) => pending,
            Some(_) => return Ack::refused(Status::ErrIncorrectObjState),
        };
        if pending.is_empty() {
            return finds_nothing(wait);
        }
        let Some(stream) = stream else {
            return Ack::refused(Status::ErrNoFreeIds);
        };
        let number = self.pop_pending(id);
        self.put(
            stream,
            Socket::Connected {
                connection: number,
                side: Side::Server,
            },
        );
        Ack::gives(u64::from(stream.raw()))
    }

    // Takes the oldest of the connections that wait at a socket.
    fn pop_pending(&mut self, id: OsalId) -> usize
        requires { 0 < length (of_found.pending_in (of_net.socket_at self.old id)) }
        ensures number { slice_get (of_found.pending_in (of_net.socket_at self.old id)) 0 ≡ Some result }
        ensures left { self.new ≡ record self.old {
          sockets = of_net.with_slot self.old.sockets id
              (of_found.with_pending (drop 1 (of_found.pending_in (of_net.socket_at self.old id)))
              (of_net.socket_at self.old id));
        } }
    {
        let slot = slot_among(&self.sockets, id);
        match &mut self.sockets[slot] {
            Some(Socket::Listens { pending, .. }) => pending.pop(),
            _ => unreachable!(),
        }
    }

    /// `OS_SocketShutdown`: shuts ways of a connection down, at the end of a socket.
    ///
    /// What is shut down stays so. Refused are, in this order, a stream that is no socket for connections
    /// (`OS_ERR_INCORRECT_OBJ_TYPE`), and one that is not connected (`OS_ERR_INCORRECT_OBJ_STATE`). Its cost is
    /// constant.
    pub fn socket_shutdown(&mut self, id: OsalId, how: How) -> Ack
        ensures { (replied result [], self.new) ≡ of_connecting.socket_shutdown self.old id how }
    {
        let (number, side) = match self.connected(id) {
            Ok(found) => found,
            Err(fault) => return Ack::refused(fault),
        };
        if connection_at(&self.connections, number).is_none() {
            return Ack::refused(Status::ErrIncorrectObjState);
        }
        shut_at(&mut self.connections, number, side, how);
        Ack::success()
    }

    /// The number of the connection of a stream's socket and its side of it, or why there is none.
    pub(super) fn connected(&self, id: OsalId) -> Result<(usize, Side), Status>
        ensures { result ≡ of_found.connected (of_net.socket_at self.now id) }
    {
        match in_slot(&self.sockets, id) {
            None | Some(Socket::Datagrams { .. }) => Err(Status::ErrIncorrectObjType),
            Some(Socket::Connected { connection, side }) => Ok((*connection, *side)),
            Some(_) => Err(Status::ErrIncorrectObjState),
        }
    }
}

// Whether something listens, and one more connection may wait there.
fn takes_more(place: &Option<Socket>) -> bool
    ensures { result ≡ of_found.takes_more place.now }
{
    match place {
        Some(Socket::Listens { pending, .. }) => pending.has_space(),
        _ => false,
    }
}

// One more connection waits at a socket that listens.
fn wait_at(sockets: &mut [Option<Socket>], listener: usize, number: usize)
    requires there { listener < length sockets.old }
    requires takes { IsTrue (of_found.takes_more (of_net.at_place sockets.old listener)) }
    ensures { sockets.new ≡ of_net.with_place sockets.old listener
        (of_found.with_pending (of_found.pending_in (of_net.at_place sockets.old listener) ++ number ∷ [])
        (of_net.at_place sockets.old listener)) }
{
    if let Some(Socket::Listens { pending, .. }) = &mut sockets[listener] {
        pending.push(number);
    }
}
