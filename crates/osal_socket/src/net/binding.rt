//! Opening, binding and listening.
ghost use Rattle.std.specs.Prelude.{◌≡◌, [], Some, IfOk, IfSome, OnErr};
ghost use Rattle.osal_base.specs.Reply.{replied, success};
ghost use Rattle.osal_socket.specs.Binding as of_binding;
ghost use Rattle.osal_socket.specs.Net as of_net;

use crate::Net;
use crate::net::is_no_port;
use crate::net::places::slot_at_port;
use crate::pending::Pending;
use crate::socket::Socket;
use osal_base::{Ack, OsalId, OutOfMemory, SockKind, Status};
use osal_slots::{in_slot, slot_among};
use std::alloc::Global;

impl Net {
    /// `OS_SocketOpen`: makes a socket, under the identifier that its stream gets, and gives that.
    ///
    /// It is neither bound nor connected. An open for which there is no identifier is refused (`OS_ERR_NO_FREE_IDS`).
    /// A socket for datagrams takes the memory for 16 of 1,024 bytes. Its cost is constant.
    pub fn socket_open(
        &mut self,
        alloc: Global,
        kind: SockKind,
        id: Option<OsalId>,
    ) -> Result<Ack, OutOfMemory>
        ensures step { IfOk result (λ ack. (replied ack [], self.new) ≡ of_binding.socket_open self.old kind id) }
        ensures kept { OnErr result (self.new ≡ self.old) }
        ensures asked_last { OnErr result ((of_binding.socket_open self.old kind id).0.answer ≡ success.answer) }
    {
        let Some(id) = id else {
            return Ok(Ack::refused(Status::ErrNoFreeIds));
        };
        let own = Socket::new(alloc, kind)?;
        self.put(id, own);
        Ok(Ack::gives(u64::from(id.raw())))
    }

    /// `OS_SocketBind`: gives a socket a port, at which it then listens or receives datagrams.
    ///
    /// Refused are, in this order, a port of 0 or above 65,535 (`OS_ERR_INVALID_ARGUMENT`), a stream that is no socket
    /// (`OS_ERR_INCORRECT_OBJ_TYPE`), a port that another socket of the kind has (`OS_ERROR`), and a socket that has a
    /// port or is connected (`OS_ERR_INCORRECT_OBJ_STATE`). It looks at each socket at most.
    pub fn socket_bind(&mut self, id: OsalId, port: u32) -> Ack
        ensures { (replied result [], self.new) ≡ of_binding.socket_bind self.old id port }
    {
        if is_no_port(port) {
            return Ack::refused(Status::ErrInvalidArgument);
        }
        let Some(own) = in_slot(&self.sockets, id) else {
            return Ack::refused(Status::ErrIncorrectObjType);
        };
        if self.is_taken(port, own) {
            return Ack::refused(Status::Error);
        }
        if !own.may_bind(port) {
            return Ack::refused(Status::ErrIncorrectObjState);
        }
        self.bind_at(id, port);
        Ack::success()
    }

    // Whether a socket of the kind has the port, and this one has not.
    fn is_taken(&self, port: u32, own: &Socket) -> bool
        ensures { result ≡ of_binding.is_taken self.now port own.now }
    {
        slot_at_port(&self.sockets, own.kind(), port).is_some() && !own.is_at_port(own.kind(), port)
    }

    // The socket of a stream has a port from now on.
    fn bind_at(&mut self, id: OsalId, port: u32)
        ensures { IfSome (of_net.socket_at self.old id) (λ own. IfSome (of_binding.bound port own) (λ changed.
            self.new ≡ of_net.with_socket self.old id changed)) }
    {
        let slot = slot_among(&self.sockets, id);
        if let Some(own) = &mut self.sockets[slot] {
            own.bind(port);
        }
    }

    /// `OS_SocketListen`: lets others connect to a socket at its port, where at most 8 connections then wait.
    ///
    /// Refused are, in this order, a stream that is no socket for connections (`OS_ERR_INCORRECT_OBJ_TYPE`), and one
    /// that is not bound, or listens already (`OS_ERR_INCORRECT_OBJ_STATE`). Its cost is constant.
    pub fn socket_listen(&mut self, id: OsalId) -> Ack
        ensures { (replied result [], self.new) ≡ of_binding.socket_listen self.old id }
    {
        match in_slot(&self.sockets, id) {
            None | Some(Socket::Datagrams { .. }) => Ack::refused(Status::ErrIncorrectObjType),
            Some(Socket::Bound { port }) => {
                let port = *port;
                self.put(
                    id,
                    Socket::Listens {
                        port,
                        pending: Pending::new(),
                    },
                );
                Ack::success()
            }
            Some(_) => Ack::refused(Status::ErrIncorrectObjState),
        }
    }
}
