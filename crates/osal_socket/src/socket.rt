//! What one socket is.
ghost use Rattle.std.specs.Prelude.{◌≡◌, is_some, IfOk, IfSome, Some};
ghost use Rattle.osal_socket.specs.Binding as of_binding;
ghost use Rattle.osal_socket.specs.Net.{is_at_port};

use crate::datagrams::Waiting;
use crate::pending::Pending;
use crate::side::Side;
use osal_base::{OutOfMemory, SockKind};
use std::alloc::Global;

/// A socket, by how far it has come. Ports are numbers from 1 to 65,535.
#[derive(Drop)]
pub(crate) enum Socket {
    /// It carries connections, and is neither bound nor connected.
    Fresh,
    /// It has a port, and does not listen there yet.
    Bound { port: u32 },
    /// It listens, with the numbers of the connections that wait to be accepted, the oldest first.
    Listens { port: u32, pending: Pending },
    /// It is connected: the number of the connection, and its side of it.
    Connected { connection: usize, side: Side },
    /// It carries datagrams: with its port, where it has one, and those that wait to be received.
    Datagrams { port: Option<u32>, waiting: Waiting },
}

impl Socket {
    /// A new socket. One for datagrams takes the memory for those that may wait.
    pub(crate) fn new(alloc: Global, kind: SockKind) -> Result<Socket, OutOfMemory>
        ensures { IfOk result (λ own. own ≡ of_binding.new_socket kind) }
    {
        match kind {
            SockKind::Stream => Ok(Socket::Fresh),
            SockKind::Dgram => Ok(Socket::Datagrams {
                port: None,
                waiting: Waiting::new(alloc)?,
            }),
        }
    }

    /// What it carries.
    pub(crate) fn kind(&self) -> SockKind
        ensures { result ≡ of_binding.kind_of self.now }
    {
        match self {
            Socket::Datagrams { .. } => SockKind::Dgram,
            _ => SockKind::Stream,
        }
    }

    /// Whether it is of the kind and has the port.
    pub(crate) fn is_at_port(&self, kind: SockKind, port: u32) -> bool
        ensures { result ≡ is_at_port kind port (Some self.now) }
    {
        match (kind, self) {
            (SockKind::Stream, Socket::Bound { port: own }) => *own == port,
            (SockKind::Stream, Socket::Listens { port: own, .. }) => *own == port,
            (
                SockKind::Dgram,
                Socket::Datagrams {
                    port: Some(own),
                    ..
                },
            ) => *own == port,
            _ => false,
        }
    }

    /// Whether it has no port and is not connected.
    pub(crate) fn may_bind(&self, port: u32) -> bool
        ensures { result ≡ is_some (of_binding.bound port self.now) }
    {
        match self {
            Socket::Fresh | Socket::Datagrams { port: None, .. } => true,
            _ => false,
        }
    }

    /// Gives it a port, where it may have one.
    pub(crate) fn bind(&mut self, port: u32)
        ensures { IfSome (of_binding.bound port self.old) (λ changed. self.new ≡ changed) }
    {
        match self {
            Socket::Fresh => *self = Socket::Bound { port },
            Socket::Datagrams { port: own, .. } => *own = Some(port),
            _ => {}
        }
    }
}
