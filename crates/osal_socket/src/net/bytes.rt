//! The bytes of a connection: reading and writing.
ghost use Rattle.std.specs.Prelude.{◌≡◌, []};
ghost use Rattle.osal_base.specs.Reply.{replied};
ghost use Rattle.osal_socket.specs.Bytes as of_bytes;

use crate::Net;
use crate::net::places::{connection_at, put_at, take_at};
use crate::net::{counts, finds_nothing};
use osal_base::{Ack, Bytes, OsalId, Room, Status, Timeout};

/// The most bytes of a read.
const READ_LIMIT: u32 = 1024;

/// The most bytes of a write.
const WRITE_LIMIT: usize = 4096;

impl Net {
    /// `OS_read` of a socket: reads at most `n` of the bytes that came to it, the oldest first.
    ///
    /// The answer's code says how many they are: 0 where the socket reads no more, or where nothing is left and the
    /// peer writes no more or is closed. Refused are, in this order, a count of none or above 1,024
    /// (`OS_ERR_INVALID_SIZE`), a stream that is no socket for connections (`OS_ERR_INCORRECT_OBJ_TYPE`), one that is
    /// not connected (`OS_ERR_INCORRECT_OBJ_STATE`), and where nothing came a read that may not wait
    /// (`OS_ERROR_TIMEOUT`); another has to wait. It copies each byte once.
    pub fn read(&mut self, id: OsalId, n: u32, wait: Timeout, room: &mut Room) -> Ack
        ensures { (replied result room.new, self.new) ≡ of_bytes.read self.old id n wait }
    {
        room.clear();
        if n == 0 || n > READ_LIMIT {
            return Ack::refused(Status::ErrInvalidSize);
        }
        let (number, side) = match self.connected(id) {
            Ok(found) => found,
            Err(fault) => return Ack::refused(fault),
        };
        let Some(connection) = connection_at(&self.connections, number) else {
            return Ack::refused(Status::ErrIncorrectObjState);
        };
        if !connection.reads(side) {
            return counts(0, 0);
        }
        if connection.has_bytes(side) {
            take_at(&mut self.connections, number, side, n, room);
            return counts(room.as_slice().len() as u32, 0);
        }
        if connection.is_peer_silent(side) {
            return counts(0, 0);
        }
        finds_nothing(wait)
    }

    /// `OS_write` of a socket: gives the peer the bytes of a payload, as many as it takes: 4,096 wait there at most.
    ///
    /// The answer's code says how many they are. Refused are, in this order, a payload of no bytes or above 4,096
    /// (`OS_ERR_INVALID_SIZE`), a stream that is no socket for connections (`OS_ERR_INCORRECT_OBJ_TYPE`), one that is
    /// not connected (`OS_ERR_INCORRECT_OBJ_STATE`), one that writes no more, or whose peer reads no more or is closed
    /// (`OS_STREAM_ERR_DISCONNECTED`), and a peer that is full (`OS_ERROR`). It copies each byte once.
    pub fn write(&mut self, id: OsalId, payload: &Bytes) -> Ack
        ensures { (replied result [], self.new) ≡ of_bytes.write self.old id payload.now.bytes }
    {
        let payload = payload.as_slice();
        if payload.is_empty() || payload.len() > WRITE_LIMIT {
            return Ack::refused(Status::ErrInvalidSize);
        }
        let (number, side) = match self.connected(id) {
            Ok(found) => found,
            Err(fault) => return Ack::refused(fault),
        };
        let Some(connection) = connection_at(&self.connections, number) else {
            return Ack::refused(Status::ErrIncorrectObjState);
        };
        if connection.is_disconnected(side) {
            return Ack::refused(Status::ErrStreamDisconnected);
        }
        if !connection.has_peer_space(side) {
            return Ack::refused(Status::Error);
        }
        let count = put_at(&mut self.connections, number, side, payload);
        counts(count as u32, 0)
    }
}
