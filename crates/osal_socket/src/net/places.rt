//! Looking for places, and what a call does with a connection in its place.
ghost use Rattle.std.specs.Prelude.{◌≡◌, ◌<◌, ◌≤◌, ◌++◌, [], drop, length, min, take, option_copied, Some, None, IfOk, IfSome, OnErr};
ghost use Rattle.osal_socket.specs.Bytes.{room_at_peer};
ghost use Rattle.osal_socket.specs.Closing as of_closing;
ghost use Rattle.osal_socket.specs.Connecting.{shut_end};
ghost use Rattle.osal_socket.specs.Connection as of_connection;
ghost use Rattle.osal_socket.specs.Net as of_net;

use crate::connection::Connection;
use crate::side::Side;
use crate::socket::Socket;
use osal_base::{How, OutOfMemory, Room, SockKind};
use std::alloc::Global;

/// The slot of the socket of a kind that has a port.
pub(super) fn slot_at_port(sockets: &[Option<Socket>], kind: SockKind, port: u32) -> Option<usize>
    ensures place { result ≡ of_net.place_where (of_net.is_at_port kind port) sockets.now }
    ensures within { IfSome result (λ place. place < length sockets.now) }
{
    for i in 0..sockets.len() {
        if is_at_port(&sockets[i], kind, port) {
            return Some(i);
        }
    }
    None
}

// Whether something is a socket of the kind with the port.
fn is_at_port(place: &Option<Socket>, kind: SockKind, port: u32) -> bool
    ensures { result ≡ of_net.is_at_port kind port place.now }
{
    match place {
        None => false,
        Some(own) => own.is_at_port(kind, port),
    }
}

// The place of the first connection that is free, behind the others where none is.
fn free_place(connections: &[Option<Connection>]) -> usize
    ensures { result ≡ of_net.free_place connections.now }
{
    for i in 0..connections.len() {
        if connections[i].is_none() {
            return i;
        }
    }
    connections.len()
}

/// One connection more, in the first place that is free, whose number it tells.
#[tactic(auto, using(crate::proofs::Places::more_within, crate::proofs::Places::more_behind))]
pub(super) fn add_connection(
    alloc: Global,
    connections: &mut Vec<Option<Connection>>,
) -> Result<usize, OutOfMemory>
    ensures added { IfOk result (λ number. (number ≡ of_net.free_place connections.old.items)
        × (connections.new.items ≡ of_net.with_more connections.old.items of_connection.new_connection)) }
    ensures kept { OnErr result (connections.new.items ≡ connections.old.items) }
{
    let connection = Connection::new(alloc)?;
    connections.reserve(1)?;
    let number = free_place(connections);
    if number < connections.len() {
        connections[number] = Some(connection);
    } else {
        connections.push_reserved(Some(connection));
    }
    Ok(number)
}

/// The connection of a number.
pub(super) fn connection_at(
    connections: &[Option<Connection>],
    number: usize,
) -> Option<&Connection>
    ensures { option_copied result ≡ of_net.at_place connections.now number }
{
    if number < connections.len() {
        return connections[number].as_ref();
    }
    None
}

/// Shuts ways of an end down.
pub(super) fn shut_at(connections: &mut [Option<Connection>], number: usize, side: Side, which: How)
    ensures { IfSome (of_net.at_place connections.old number) (λ connection.
        connections.new ≡ of_net.with_place connections.old number (Some (of_connection.with_own side connection
        (shut_end which (of_connection.own_end side connection))))) }
{
    if number < connections.len() {
        if let Some(connection) = &mut connections[number] {
            connection.shut(side, which);
        }
    }
}

/// Moves the oldest bytes that wait at an end to a clear room, at most so many.
pub(super) fn take_at(
    connections: &mut [Option<Connection>],
    number: usize,
    side: Side,
    n: u32,
    room: &mut Room,
)
    requires few { n ≤ 1024 }
    requires clear { room.old ≡ [] }
    ensures { IfSome (of_net.at_place connections.old number) (λ connection.
        (room.new ≡ take n (of_connection.own_end side connection).incoming)
        × (connections.new ≡ of_net.with_place connections.old number (Some (of_connection.with_own side connection
        (record (of_connection.own_end side connection)
        { incoming = drop n (of_connection.own_end side connection).incoming }))))) }
{
    if number < connections.len() {
        if let Some(connection) = &mut connections[number] {
            connection.take(side, n, room);
        }
    }
}

/// Puts the first of some bytes at the peer of an end, as many as it takes, and says how many.
pub(super) fn put_at(
    connections: &mut [Option<Connection>],
    number: usize,
    side: Side,
    bytes: &[u8],
) -> usize
    ensures count { result ≤ length bytes.now }
    ensures put { IfSome (of_net.at_place connections.old number) (λ connection.
        (result ≡ room_at_peer side connection bytes.now)
        × (connections.new ≡ of_net.with_place connections.old number (Some (of_connection.with_peer side connection
        (record (of_connection.peer_end side connection)
        { incoming = (of_connection.peer_end side connection).incoming ++ take result bytes.now }))))) }
{
    if number < connections.len() {
        if let Some(connection) = &mut connections[number] {
            return connection.put(side, bytes);
        }
    }
    0
}

/// Closes an end; the connection is over where the other one is closed too.
pub(super) fn end_at(connections: &mut [Option<Connection>], number: usize, side: Side)
    ensures { connections.new ≡ of_closing.without_end_of connections.old number side }
{
    let Some(connection) = connection_at(connections, number) else {
        return;
    };
    if connection.is_peer_closed(side) {
        connections[number] = None;
        return;
    }
    if let Some(connection) = &mut connections[number] {
        connection.close(side);
    }
}

/// Closes the ends that wait to be accepted.
pub(super) fn end_all(connections: &mut [Option<Connection>], numbers: &[usize])
    ensures { connections.new ≡ of_closing.without_pending connections.old numbers.now }
{
    for i in 0..numbers.len() {
        end_at(connections, numbers[i], Side::Server);
    }
}
