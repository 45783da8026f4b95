//! A connection of two sockets.
ghost use Rattle.std.specs.Prelude.{◌≡◌, ◌≤◌, ◌++◌, ◌-◌, [], true, drop, length, min, nat_lt, take, IfOk};
ghost use Rattle.osal_socket.specs.Connection as of_connection;
ghost use Rattle.osal_socket.specs.Connecting.{leaves_reading, leaves_writing, shut_end};

use crate::side::Side;
use osal_base::{How, OutOfMemory, Room};
use osal_ring::Ring;
use std::alloc::Global;
use std::marker::Model;

/// The most bytes that wait at an end.
const PIPE_LIMIT: u32 = 4096;

/// One end of a connection: the bytes that came to it and are not read yet, and whether it still reads, still writes,
/// and is closed.
#[derive(Drop)]
pub(crate) struct End {
    incoming: Ring,
    reads: bool,
    writes: bool,
    closed: bool,
}

impl Model for End {
    ghost use Rattle.std.specs.Prelude.{◌≡◌};
    ghost use Rattle.osal_socket.specs.Connection.{End, pipe_limit};

    ghost Value = { End };

    ghost view = { λ a. record {
      incoming = a.incoming.bytes;
      reads = a.reads;
      writes = a.writes;
      closed = a.closed;
    } };

    ghost invariant = { λ a. a.incoming.capacity ≡ pipe_limit };
}

impl End {
    // An end at which nothing has happened, with the memory for the bytes that may wait there.
    fn new(alloc: Global) -> Result<End, OutOfMemory>
        ensures { IfOk result (λ end. end ≡ of_connection.new_end) }
    {
        Ok(End {
            incoming: Ring::new(alloc, PIPE_LIMIT)?,
            reads: true,
            writes: true,
            closed: false,
        })
    }

    // Whether nothing more comes from it.
    fn is_silent(&self) -> bool
        ensures { result ≡ of_connection.is_silent self.now }
    {
        self.closed || !self.writes
    }

    // Whether nothing more goes to it.
    fn is_deaf(&self) -> bool
        ensures { result ≡ of_connection.is_deaf self.now }
    {
        self.closed || !self.reads
    }

    // Whether a byte waits.
    fn has_bytes(&self) -> bool
        ensures { result ≡ nat_lt 0 (length self.now.incoming) }
    {
        self.incoming.len() > 0
    }

    // Whether it takes a byte more.
    fn has_space(&self) -> bool
        ensures { result ≡ nat_lt (length self.now.incoming) of_connection.pipe_limit }
    {
        self.incoming.len() < PIPE_LIMIT as usize
    }

    // Moves the oldest bytes to a clear room, at most so many.
    fn take(&mut self, n: u32, room: &mut Room)
        requires few { n ≤ 1024 }
        requires clear { room.old ≡ [] }
        ensures bytes { room.new ≡ take n self.old.incoming }
        ensures left { self.new ≡ record self.old { incoming = drop n self.old.incoming } }
    {
        let count = self.incoming.len().min(n as usize);
        self.incoming.take(count, room);
    }

    // Puts the first of some bytes behind the others, as many as there is space for, and says how many.
    fn put(&mut self, bytes: &[u8]) -> usize
        ensures count { result ≡ min (length bytes.now) (of_connection.pipe_limit - length self.old.incoming) }
        ensures put { self.new ≡ record self.old { incoming = self.old.incoming ++ take result bytes.now } }
    {
        let count = bytes.len().min(self.incoming.space());
        self.incoming.put(&bytes[..count]);
        count
    }

    // Shuts ways down.
    fn shut(&mut self, which: How)
        ensures { self.new ≡ shut_end which self.old }
    {
        self.reads = leaves_reading(which) && self.reads;
        self.writes = leaves_writing(which) && self.writes;
    }

    // Closes it.
    fn close(&mut self)
        ensures { self.new ≡ record self.old { closed = true } }
    {
        self.closed = true;
    }
}

/// Two ends: that of the socket that asked for the connection, and that at the socket that listened.
#[derive(Drop)]
pub(crate) struct Connection {
    client: End,
    server: End,
}

impl Model for Connection {
    ghost use Rattle.osal_socket.specs.Connection.{Connection};

    ghost Value = { Connection };

    ghost view = { λ a. record { client = a.client; server = a.server } };

    ghost invariant = { λ a. Unit {0} };
}

impl Connection {
    /// A connection at which nothing has happened, with the memory for the bytes that may wait in it.
    pub(crate) fn new(alloc: Global) -> Result<Connection, OutOfMemory>
        ensures { IfOk result (λ connection. connection ≡ of_connection.new_connection) }
    {
        Ok(Connection {
            client: End::new(alloc)?,
            server: End::new(alloc)?,
        })
    }

    // One end.
    fn own(&self, side: Side) -> &End
        ensures { result.now ≡ of_connection.own_end side self.now }
    {
        match side {
            Side::Client => &self.client,
            Side::Server => &self.server,
        }
    }

    // The other one.
    fn peer(&self, side: Side) -> &End
        ensures { result.now ≡ of_connection.peer_end side self.now }
    {
        match side {
            Side::Client => &self.server,
            Side::Server => &self.client,
        }
    }

    /// Whether an end still reads.
    pub(crate) fn reads(&self, side: Side) -> bool
        ensures { result ≡ (of_connection.own_end side self.now).reads }
    {
        self.own(side).reads
    }

    /// Whether a byte waits at an end.
    pub(crate) fn has_bytes(&self, side: Side) -> bool
        ensures { result ≡ nat_lt 0 (length (of_connection.own_end side self.now).incoming) }
    {
        self.own(side).has_bytes()
    }

    /// Whether nothing more comes from the peer of an end.
    pub(crate) fn is_peer_silent(&self, side: Side) -> bool
        ensures { result ≡ of_connection.is_silent (of_connection.peer_end side self.now) }
    {
        self.peer(side).is_silent()
    }

    /// Whether the peer of an end takes a byte more.
    pub(crate) fn has_peer_space(&self, side: Side) -> bool
        ensures { result ≡ nat_lt (length (of_connection.peer_end side self.now).incoming) of_connection.pipe_limit }
    {
        self.peer(side).has_space()
    }

    /// Whether the peer of an end is closed.
    pub(crate) fn is_peer_closed(&self, side: Side) -> bool
        ensures { result ≡ (of_connection.peer_end side self.now).closed }
    {
        self.peer(side).closed
    }

    /// Whether a read at an end would not wait.
    pub(crate) fn may_read_now(&self, side: Side) -> bool
        ensures { result ≡ of_connection.may_read_now side self.now }
    {
        !self.reads(side) || self.has_bytes(side) || self.is_peer_silent(side)
    }

    /// Whether a write at an end answers that the stream is disconnected.
    pub(crate) fn is_disconnected(&self, side: Side) -> bool
        ensures { result ≡ of_connection.is_disconnected side self.now }
    {
        !self.own(side).writes || self.peer(side).is_deaf()
    }

    /// Whether a write at an end would not find the peer full.
    pub(crate) fn may_write_now(&self, side: Side) -> bool
        ensures { result ≡ of_connection.may_write_now side self.now }
    {
        self.is_disconnected(side) || self.has_peer_space(side)
    }

    /// Moves the oldest bytes that wait at an end to a clear room, at most so many. It copies each once.
    pub(crate) fn take(&mut self, side: Side, n: u32, room: &mut Room)
        requires few { n ≤ 1024 }
        requires clear { room.old ≡ [] }
        ensures bytes { room.new ≡ take n (of_connection.own_end side self.old).incoming }
        ensures left { self.new ≡ of_connection.with_own side self.old
            (record (of_connection.own_end side self.old)
            { incoming = drop n (of_connection.own_end side self.old).incoming }) }
    {
        match side {
            Side::Client => self.client.take(n, room),
            Side::Server => self.server.take(n, room),
        }
    }

    /// Puts the first of some bytes at the peer of an end, as many as it takes, and says how many. It copies each
    /// once.
    pub(crate) fn put(&mut self, side: Side, bytes: &[u8]) -> usize
        ensures count { result ≡ min (length bytes.now)
            (of_connection.pipe_limit - length (of_connection.peer_end side self.old).incoming) }
        ensures put { self.new ≡ of_connection.with_peer side self.old
            (record (of_connection.peer_end side self.old)
            { incoming = (of_connection.peer_end side self.old).incoming ++ take result bytes.now }) }
    {
        match side {
            Side::Client => self.server.put(bytes),
            Side::Server => self.client.put(bytes),
        }
    }

    /// Shuts ways of an end down.
    pub(crate) fn shut(&mut self, side: Side, which: How)
        ensures { self.new ≡ of_connection.with_own side self.old
            (shut_end which (of_connection.own_end side self.old)) }
    {
        match side {
            Side::Client => self.client.shut(which),
            Side::Server => self.server.shut(which),
        }
    }

    /// Closes an end.
    pub(crate) fn close(&mut self, side: Side)
        ensures { self.new ≡ of_connection.with_own side self.old
            (record (of_connection.own_end side self.old) { closed = true }) }
    {
        match side {
            Side::Client => self.client.close(),
            Side::Server => self.server.close(),
        }
    }
}

// Whether a shutdown leaves the reading.
fn leaves_reading(which: How) -> bool
    ensures { result ≡ leaves_reading which }
{
    match which {
        How::Read | How::Both => false,
        How::Write => true,
    }
}

// Whether it leaves the writing.
fn leaves_writing(which: How) -> bool
    ensures { result ≡ leaves_writing which }
{
    match which {
        How::Read => true,
        How::Write | How::Both => false,
    }
}
