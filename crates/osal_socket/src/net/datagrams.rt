//! Sending and receiving datagrams.
ghost use Rattle.std.specs.Prelude.{◌≡◌, ◌<◌, ◌≤◌, ◌++◌, ◌∷◌, [], drop, length, IsTrue};
ghost use Rattle.osal_base.specs.Reply.{replied};
ghost use Rattle.osal_socket.specs.Datagram.{datagram_limit};
ghost use Rattle.osal_socket.specs.Datagrams as of_datagrams;
ghost use Rattle.osal_socket.specs.Found as of_found;
ghost use Rattle.osal_socket.specs.Net as of_net;
ghost use Rattle.osal_socket.specs.Waiting.{oldest_taken};

use crate::Net;
use crate::net::places::slot_at_port;
use crate::net::{counts, finds_nothing, is_no_port};
use crate::socket::Socket;
use osal_base::{Ack, Bytes, OsalId, Room, SockKind, Status, Timeout};
use osal_slots::{in_slot, slot_among};

/// The most bytes of a datagram.
const DATAGRAM_LIMIT: u32 = 1024;

impl Net {
    /// `OS_SocketSendTo`: sends a datagram to the socket that has a port; it waits there to be received.
    ///
    /// The answer's code says how many bytes were sent: all. Refused are, in this order, a payload of no bytes or
    /// above 1,024 (`OS_ERR_INVALID_SIZE`), a port of 0 or above 65,535 (`OS_ERR_INVALID_ARGUMENT`), a stream that is
    /// no socket for datagrams (`OS_ERR_INCORRECT_OBJ_TYPE`), and a port that no such socket has, or where 16
    /// datagrams wait (both `OS_ERROR`). It looks at each socket at most, and copies each byte once.
    pub fn socket_send(&mut self, id: OsalId, payload: &Bytes, port: u32) -> Ack
        ensures { (replied result [], self.new) ≡ of_datagrams.socket_send self.old id payload.now.bytes port }
    {
        let payload = payload.as_slice();
        if payload.is_empty() || payload.len() > DATAGRAM_LIMIT as usize {
            return Ack::refused(Status::ErrInvalidSize);
        }
        if is_no_port(port) {
            return Ack::refused(Status::ErrInvalidArgument);
        }
        let from = match in_slot(&self.sockets, id) {
            Some(Socket::Datagrams { port, .. }) => sender(*port),
            _ => return Ack::refused(Status::ErrIncorrectObjType),
        };
        let Some(slot) = slot_at_port(&self.sockets, SockKind::Dgram, port) else {
            return Ack::refused(Status::Error);
        };
        if !takes_datagram(&self.sockets[slot]) {
            return Ack::refused(Status::Error);
        }
        wait_at(&mut self.sockets, slot, from, payload);
        counts(payload.len() as u32, 0)
    }

    /// `OS_SocketRecvFrom`: receives the oldest of the datagrams that wait at a socket, at most `n` of its bytes; what
    /// is behind them goes.
    ///
    /// The answer's code says how many they are, and its number from which port they came, 0 for a sender without one.
    /// Refused are, in this order, a count of none or above 1,024 (`OS_ERR_INVALID_SIZE`), a stream that is no socket
    /// for datagrams (`OS_ERR_INCORRECT_OBJ_TYPE`), one without a port (`OS_ERR_INCORRECT_OBJ_STATE`), and where none
    /// waits a receive that may not wait (`OS_ERROR_TIMEOUT`); another has to wait. It copies each byte once.
    pub fn socket_recv(&mut self, id: OsalId, n: u32, wait: Timeout, room: &mut Room) -> Ack
        ensures { (replied result room.new, self.new) ≡ of_datagrams.socket_recv self.old id n wait }
    {
        room.clear();
        if n == 0 || n > DATAGRAM_LIMIT {
            return Ack::refused(Status::ErrInvalidSize);
        }
        match in_slot(&self.sockets, id) {
            Some(
                Socket::Datagrams {
                    port: Some(_),
                    waiting,
                },
            ) => {
                if waiting.is_empty() {
                    return finds_nothing(wait);
                }
            }
            Some(Socket::Datagrams { .. }) => return Ack::refused(Status::ErrIncorrectObjState),
            _ => return Ack::refused(Status::ErrIncorrectObjType),
        }
        let from = self.pop_datagram(id, n, room);
        counts(room.as_slice().len() as u32, from)
    }

    // Takes the oldest of the datagrams that wait at a socket, and tells the port that it came from.
    fn pop_datagram(&mut self, id: OsalId, n: u32, room: &mut Room) -> u32
        requires some { 0 < length (of_found.datagrams_in (of_net.socket_at self.old id)) }
        requires clear { room.old ≡ [] }
        ensures taken { oldest_taken n (of_found.datagrams_in (of_net.socket_at self.old id))
            ≡ (result, room.new, drop 1 (of_found.datagrams_in (of_net.socket_at self.old id))) }
        ensures left { self.new ≡ record self.old {
          sockets = of_net.with_slot self.old.sockets id
              (of_found.with_datagrams (drop 1 (of_found.datagrams_in (of_net.socket_at self.old id)))
              (of_net.socket_at self.old id));
        } }
    {
        let slot = slot_among(&self.sockets, id);
        match &mut self.sockets[slot] {
            Some(Socket::Datagrams { waiting, .. }) => waiting.pop(n, room),
            _ => unreachable!(),
        }
    }
}

// The port that a datagram comes from: 0 where its sender has none.
fn sender(port: Option<u32>) -> u32
    ensures { result ≡ of_datagrams.sender port }
{
    port.unwrap_or(0)
}

// Whether something carries datagrams, and one more may wait there.
fn takes_datagram(place: &Option<Socket>) -> bool
    ensures { result ≡ of_found.takes_datagram place.now }
{
    match place {
        Some(Socket::Datagrams { waiting, .. }) => waiting.has_space(),
        _ => false,
    }
}

// One more datagram waits at a socket that takes it.
fn wait_at(sockets: &mut [Option<Socket>], slot: usize, from: u32, bytes: &[u8])
    requires there { slot < length sockets.old }
    requires takes { IsTrue (of_found.takes_datagram (of_net.at_place sockets.old slot)) }
    requires few { length bytes.now ≤ datagram_limit }
    ensures { sockets.new ≡ of_net.with_place sockets.old slot
        (of_found.with_datagrams
        (of_found.datagrams_in (of_net.at_place sockets.old slot) ++ record { from = from; bytes = bytes.now } ∷ [])
        (of_net.at_place sockets.old slot)) }
{
    if let Some(Socket::Datagrams { waiting, .. }) = &mut sockets[slot] {
        waiting.push(from, bytes);
    }
}
