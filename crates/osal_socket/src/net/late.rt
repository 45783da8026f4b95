//! Whether a call on a socket would have to wait.
ghost use Rattle.std.specs.Prelude.{◌≡◌};
ghost use Rattle.osal_socket.specs.Net.{at_place, socket_at};
ghost use Rattle.osal_socket.specs.Readiness as of_readiness;

use super::Net;
use super::places::connection_at;
use crate::side::Side;
use crate::socket::Socket;
use osal_base::OsalId;
use osal_slots::in_slot;

impl Net {
    /// Whether a read of a socket would have to wait. The cost is constant.
    pub fn reads_late(&self, id: OsalId) -> bool
        ensures { result ≡ of_readiness.reads_late self.now id }
    {
        match in_slot(&self.sockets, id) {
            Some(Socket::Connected { connection, side }) => self.end_waits(*connection, *side),
            _ => false,
        }
    }

    // Whether a read at an end of the connection of a number would have to wait.
    fn end_waits(&self, number: usize, side: Side) -> bool
        ensures { result ≡ of_readiness.end_waits side (at_place self.now.connections number) }
    {
        match connection_at(&self.connections, number) {
            Some(connection) => !connection.may_read_now(side),
            None => false,
        }
    }

    /// Whether an accept by a socket would have to wait. The cost is constant.
    pub fn accepts_late(&self, id: OsalId) -> bool
        ensures { result ≡ of_readiness.socket_accepts_late (socket_at self.now id) }
    {
        match in_slot(&self.sockets, id) {
            Some(Socket::Listens { pending, .. }) => pending.is_empty(),
            _ => false,
        }
    }

    /// Whether a receive by a socket would have to wait. The cost is constant.
    pub fn receives_late(&self, id: OsalId) -> bool
        ensures { result ≡ of_readiness.socket_receives_late (socket_at self.now id) }
    {
        match in_slot(&self.sockets, id) {
            Some(
                Socket::Datagrams {
                    port: Some(_),
                    waiting,
                },
            ) => waiting.is_empty(),
            _ => false,
        }
    }
}
