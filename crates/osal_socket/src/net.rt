//! The sockets of the process.
ghost use Rattle.std.specs.Prelude.{◌≡◌, ◌≤◌, [], IfOk, pos, if◌then◌else◌};
ghost use Rattle.osal_base.specs.Limits.{Fits};
ghost use Rattle.osal_base.specs.Reply.{replied, refusal, waits};
ghost use Rattle.osal_base.specs.Time.{is_check};
ghost use Rattle.osal_base.specs.declared.reply.Answer.TheVariants as answer;
ghost use Rattle.osal_base.specs.declared.status.Status.TheVariants as status;
ghost use Rattle.osal_socket.specs.Net as of_net;
ghost use Rattle.osal_socket.specs.Readiness as of_readiness;

mod binding;
mod bytes;
mod closing;
mod connecting;
mod datagrams;
mod late;
mod places;

use crate::connection::Connection;
use crate::side::Side;
use crate::socket::Socket;
use osal_base::{Ack, Answer, Limits, OsalId, OutOfMemory, Status, Timeout};
use osal_select::Ready;
use osal_slots::{empty_slots, in_slot, slot_among};
use places::connection_at;
use std::alloc::Global;
use std::marker::Model;

/// The sockets of the process, and the connections between them.
#[derive(Drop)]
pub struct Net {
    /// Each in the slot of its stream's identifier.
    sockets: Vec<Option<Socket>>,
    /// Each in the place of its number.
    connections: Vec<Option<Connection>>,
}

impl Model for Net {
    ghost use Rattle.std.specs.Prelude.{◌<◌, length};
    ghost use Rattle.osal_socket.specs.Net.{NetState};

    ghost Value = { NetState };

    ghost view = { λ a. record { sockets = a.sockets.items; connections = a.connections.items } };

    ghost invariant = { λ a. 0 < length a.sockets.items };
}

impl Net {
    /// No sockets, with the memory for as many places of streams as the limits say.
    pub fn new(alloc: Global, limits: &Limits) -> Result<Net, OutOfMemory>
        requires { Fits limits.now }
        ensures { IfOk result (λ net. net ≡ of_net.no_sockets limits.now) }
    {
        let sockets = empty_slots(alloc, limits.streams)?;
        Ok(Net {
            sockets,
            connections: Vec::new(alloc),
        })
    }

    /// What is ready of the socket of a stream: whether a read, and a write, would not have to wait.
    ///
    /// A socket that listens can be read where a connection waits, one for datagrams where a datagram does; this one
    /// can always be written. A stream that is no socket, and a socket that is neither, is never ready. Its cost is
    /// constant.
    pub fn ready(&self, id: OsalId) -> Ready
        ensures { result ≡ of_readiness.ready self.now id }
    {
        match in_slot(&self.sockets, id) {
            Some(Socket::Listens { pending, .. }) => Ready {
                readable: !pending.is_empty(),
                writable: false,
            },
            Some(Socket::Datagrams { waiting, .. }) => Ready {
                readable: !waiting.is_empty(),
                writable: true,
            },
            Some(Socket::Connected { connection, side }) => self.ready_end(*connection, *side),
            _ => Ready::NEITHER,
        }
    }

    // What is ready of an end of a connection.
    fn ready_end(&self, number: usize, side: Side) -> Ready
        ensures { result ≡ of_readiness.ready_end side (of_net.at_place self.now.connections number) }
    {
        match connection_at(&self.connections, number) {
            Some(connection) => Ready {
                readable: connection.may_read_now(side),
                writable: connection.may_write_now(side),
            },
            None => Ready::NEITHER,
        }
    }

    // Another socket in the place of a stream's.
    fn put(&mut self, id: OsalId, own: Socket)
        ensures { self.new ≡ of_net.with_socket self.old id own }
    {
        let slot = slot_among(&self.sockets, id);
        self.sockets[slot] = Some(own);
    }
}

// A call that finds nothing is refused where it may not wait, and else has to wait.
fn finds_nothing(wait: Timeout) -> Ack
    ensures { replied result [] ≡ (if is_check wait then refusal status.ErrorTimeout else waits) }
{
    if wait.is_check() {
        return Ack::refused(Status::ErrorTimeout);
    }
    Ack::waits()
}

// A count, as the code of an answer, with a number.
fn counts(count: u32, number: u32) -> Ack
    requires { count ≤ 4096 }
    ensures { result ≡ record { answer = answer.Code (pos count); number = number } }
{
    Ack {
        answer: Answer::Code(count as i32),
        number: u64::from(number),
    }
}

// Whether a number is that of no port.
fn is_no_port(port: u32) -> bool
    ensures { result ≡ of_net.is_no_port port }
{
    port == 0 || port > 65_535
}
