//! Calls on sockets as rows, each with what it answers.
use osal_base::{Ack, Answer, Bytes, How, Limits, OsalId, Room, SockKind, Status, Timeout};
use osal_socket::Net;
use std::alloc::Global;
use std::process::Abort;

/// A call on the socket of a number.
#[derive(Clone, Copy)]
pub enum Call {
    Open(SockKind, u32),
    /// To a port.
    Bind(u32, u32),
    Listen(u32),
    /// To a port.
    Connect(u32, u32),
    /// Under the number that the new socket gets, without a wait.
    Accept(u32, u32),
    Write(u32, &'static [u8]),
    /// Of so many bytes at most, without a wait.
    Read(u32, u32),
    /// The same, with a wait.
    Await(u32, u32),
    /// To a port.
    Send(u32, &'static [u8], u32),
    /// Of so many bytes at most, without a wait.
    Receive(u32, u32),
    Shut(u32, How),
    Close(u32),
    Ready(u32),
}

/// What is answered.
#[derive(Clone, Copy)]
pub enum Wanted {
    Success,
    /// Success, with the socket of a number.
    Stream(u32),
    Refused(Status),
    Waits,
    /// So many bytes were taken.
    Count(i32),
    /// These bytes, from a port.
    Bytes(&'static [u8], u64),
    /// Whether it can be read, and whether it can be written.
    Is(bool, bool),
}

/// A call, and what it answers.
pub type Row = (Call, Wanted);

fn id_of(number: u32) -> OsalId {
    OsalId::of_raw(number)
}

fn write(net: &mut Net, alloc: Global, number: u32, bytes: &[u8]) -> Option<Ack> {
    let payload = Bytes::copy(alloc, bytes).ok()?;
    Some(net.write(id_of(number), &payload))
}

fn send(net: &mut Net, alloc: Global, number: u32, bytes: &[u8], port: u32) -> Option<Ack> {
    let payload = Bytes::copy(alloc, bytes).ok()?;
    Some(net.socket_send(id_of(number), &payload, port))
}

// Makes a call, where there is memory.
fn make(net: &mut Net, alloc: Global, call: Call, room: &mut Room) -> Option<Ack> {
    room.clear();
    match call {
        Call::Open(kind, number) => net.socket_open(alloc, kind, Some(id_of(number))).ok(),
        Call::Bind(number, port) => Some(net.socket_bind(id_of(number), port)),
        Call::Listen(number) => Some(net.socket_listen(id_of(number))),
        Call::Connect(number, port) => net.socket_connect(alloc, id_of(number), port).ok(),
        Call::Accept(number, new) => {
            Some(net.socket_accept(id_of(number), Timeout::Check, Some(id_of(new))))
        }
        Call::Write(number, bytes) => write(net, alloc, number, bytes),
        Call::Read(number, n) => Some(net.read(id_of(number), n, Timeout::Check, room)),
        Call::Await(number, n) => Some(net.read(id_of(number), n, Timeout::Pend, room)),
        Call::Send(number, bytes, port) => send(net, alloc, number, bytes, port),
        Call::Receive(number, n) => {
            Some(net.socket_recv(id_of(number), n, Timeout::Check, room))
        }
        Call::Shut(number, how) => Some(net.socket_shutdown(id_of(number), how)),
        Call::Close(number) => Some(net.close(id_of(number))),
        Call::Ready(_) => None,
    }
}

fn has_code(ack: &Ack, code: i32) -> bool {
    ack.answer == Answer::Code(code)
}

// Whether an answer, with the bytes in the room, is as wanted.
fn is_as_wanted(ack: &Ack, bytes: &[u8], wanted: Wanted) -> bool {
    match wanted {
        Wanted::Success => has_code(ack, 0) && ack.number == 0 && bytes.is_empty(),
        Wanted::Stream(number) => has_code(ack, 0) && ack.number == u64::from(number),
        Wanted::Refused(status) => has_code(ack, status.number()) && bytes.is_empty(),
        Wanted::Waits => ack.answer == Answer::Waits && bytes.is_empty(),
        Wanted::Count(count) => has_code(ack, count) && ack.number == 0 && bytes.is_empty(),
        Wanted::Bytes(given, port) => bytes == given && ack.number == port,
        Wanted::Is(_, _) => false,
    }
}

fn answers(net: &mut Net, alloc: Global, row: &Row) -> bool {
    if let (Call::Ready(number), Wanted::Is(readable, writable)) = *row {
        let ready = net.ready(id_of(number));
        return ready.readable == readable && ready.writable == writable;
    }
    let mut room = Room::new();
    match make(net, alloc, row.0, &mut room) {
        Some(ack) => is_as_wanted(&ack, room.as_slice(), row.1),
        None => false,
    }
}

/// Follows tables of rows from no sockets on, and says at which row of which table one answers otherwise.
pub fn follow<H: Abort + AllocGlobal>(rt: &H, tables: &[&[Row]]) -> Option<(usize, usize)> {
    let mut net = Net::new(rt.alloc(), &Limits::version1()).expect(rt, "there is memory");
    for (table, rows) in tables.iter().enumerate() {
        for (at, row) in rows.iter().enumerate() {
            if !answers(&mut net, rt.alloc(), row) {
                return Some((table, at));
            }
        }
    }
    None
}
