//! Closing a socket whose stream goes.
ghost use Rattle.std.specs.Prelude.{◌≡◌, []};
ghost use Rattle.osal_base.specs.Reply.{replied};
ghost use Rattle.osal_socket.specs.Closing as of_closing;

use crate::Net;
use crate::net::places::{end_all, end_at};
use crate::socket::Socket;
use osal_base::{Ack, OsalId};
use osal_slots::slot_among;

impl Net {
    /// `OS_close` of a socket: its end of a connection is closed, and so are those that wait to be accepted at it.
    ///
    /// Bytes that it sent stay to be read; those that came to it go, with the connection, once both ends are closed.
    /// Its port is free. It is not refused, and costs at most the connections that wait.
    pub fn close(&mut self, id: OsalId) -> Ack
        ensures { (replied result [], self.new) ≡ of_closing.close self.old id }
    {
        let slot = slot_among(&self.sockets, id);
        match &self.sockets[slot] {
            Some(Socket::Connected { connection, side }) => {
                end_at(&mut self.connections, *connection, *side);
            }
            Some(Socket::Listens { pending, .. }) => {
                end_all(&mut self.connections, pending.as_slice());
            }
            _ => {}
        }
        self.sockets[slot] = None;
        Ack::success()
    }
}
