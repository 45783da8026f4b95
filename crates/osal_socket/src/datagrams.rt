//! The datagrams that wait at a socket.
ghost use Rattle.std.specs.Prelude.{◌≡◌, ◌<◌, ◌≤◌, ◌==◌, ◌++◌, ◌∷◌, [], length, nat_lt, IfOk};
ghost use Rattle.osal_socket.specs.Datagram.{datagram_limit, waiting_limit};
ghost use Rattle.osal_socket.specs.Waiting.{oldest_taken};

use circular_buffer::HeapCircularBuffer;
use osal_base::{OutOfMemory, Room};
use osal_ring::Messages;
use std::alloc::Global;
use std::marker::Model;

/// The most datagrams that wait at a socket.
const WAITING_LIMIT: u32 = 16;

/// The most bytes of a datagram.
const DATAGRAM_LIMIT: u32 = 1024;

/// At most 16 datagrams of at most 1,024 bytes, the oldest first, whose memory is taken once and for all.
#[derive(Drop)]
pub(crate) struct Waiting {
    messages: Messages,
    /// Those that they came from, 0 for none.
    ports: HeapCircularBuffer<u32>,
}

impl Model for Waiting {
    ghost use Rattle.std.specs.Prelude.{List};
    ghost use Rattle.osal_socket.specs.Datagram.{Datagram};
    ghost use Rattle.osal_socket.specs.Waiting.{datagrams_of, IsWaiting};

    ghost Value = { List Datagram };

    ghost view = { λ a. datagrams_of a.ports.items a.messages.messages };

    ghost invariant = { IsWaiting };
}

impl Waiting {
    /// No datagram, with the memory for as many as may wait.
    pub(crate) fn new(alloc: Global) -> Result<Waiting, OutOfMemory>
        ensures { IfOk result (λ waiting. waiting ≡ []) }
    {
        let messages = Messages::new(alloc, WAITING_LIMIT, DATAGRAM_LIMIT)?;
        let ports = HeapCircularBuffer::with_capacity(alloc, WAITING_LIMIT as usize)?;
        Ok(Waiting { messages, ports })
    }

    /// Whether none waits.
    pub(crate) fn is_empty(&self) -> bool
        ensures { result ≡ (length self.now == 0) }
    {
        self.ports.is_empty()
    }

    /// Whether one more may wait.
    pub(crate) fn has_space(&self) -> bool
        ensures { result ≡ nat_lt (length self.now) waiting_limit }
    {
        self.ports.len() < WAITING_LIMIT as usize
    }

    /// One more waits. It copies its bytes once.
    pub(crate) fn push(&mut self, from: u32, bytes: &[u8])
        requires few { length bytes.now ≤ datagram_limit }
        requires space { length self.old < waiting_limit }
        ensures { self.new ≡ self.old ++ record { from = from; bytes = bytes.now } ∷ [] }
    {
        self.messages.push(bytes);
        self.ports.push_back(from);
    }

    /// Takes the oldest out, moves at most `n` of its bytes to a clear room, and tells the port that it came from.
    pub(crate) fn pop(&mut self, n: u32, room: &mut Room) -> u32
        requires some { 0 < length self.old }
        requires clear { room.old ≡ [] }
        ensures { (result, room.new, self.new) ≡ oldest_taken n self.old }
    {
        self.messages.pop(n, room);
        self.ports.pop_front().unwrap()
    }
}
