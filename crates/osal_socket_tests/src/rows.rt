//! Connections and datagrams.
use crate::fixture::Call::{
    Accept, Await, Bind, Close, Connect, Listen, Open, Read, Ready, Receive, Send, Shut, Write,
};
use crate::fixture::Wanted::{Bytes, Count, Is, Refused, Stream, Success, Waits};
use crate::fixture::{Row, follow};
use osal_base::{How, SockKind, Status};
use std::test::Fail;

/// A client connects to a listener.
const CONNECTED: [Row; 8] = [
    (Open(SockKind::Stream, 1), Stream(1)),
    (Bind(1, 5000), Success),
    (Accept(1, 3), Refused(Status::ErrIncorrectObjState)),
    (Listen(1), Success),
    (Accept(1, 3), Refused(Status::ErrorTimeout)),
    (Open(SockKind::Stream, 2), Stream(2)),
    (Connect(2, 5000), Success),
    (Accept(1, 3), Stream(3)),
];

/// Bytes go over, and the client writes no more.
const TALKS: [Row; 9] = [
    (Await(3, 3), Waits),
    (Ready(3), Is(false, true)),
    (Write(2, b"hello"), Count(5)),
    (Ready(3), Is(true, true)),
    (Read(3, 3), Bytes(b"hel", 0)),
    (Read(3, 3), Bytes(b"lo", 0)),
    (Read(3, 3), Refused(Status::ErrorTimeout)),
    (Shut(2, How::Write), Success),
    (Read(3, 3), Bytes(b"", 0)),
];

#[test]
fn bytes_of_a_connection_come_in_order(rt: HostRuntime) {
    assert_eq!(rt; follow(&rt, &[&CONNECTED, &TALKS]), None);
}

/// The client closes, and then the listener.
const CLOSED: [Row; 9] = [
    (Write(2, b"last"), Count(4)),
    (Close(2), Success),
    (Write(3, b"x"), Refused(Status::ErrStreamDisconnected)),
    (Read(3, 9), Bytes(b"last", 0)),
    (Read(3, 9), Bytes(b"", 0)),
    (Open(SockKind::Stream, 2), Stream(2)),
    (Connect(2, 5000), Success),
    (Close(1), Success),
    (Read(2, 9), Bytes(b"", 0)),
];

#[test]
fn what_was_sent_outlives_the_sender(rt: HostRuntime) {
    assert_eq!(rt; follow(&rt, &[&CONNECTED, &CLOSED]), None);
}

/// Datagrams to a port.
const DATAGRAMS: [Row; 11] = [
    (Open(SockKind::Dgram, 1), Stream(1)),
    (Receive(1, 9), Refused(Status::ErrIncorrectObjState)),
    (Bind(1, 7), Success),
    (Open(SockKind::Dgram, 2), Stream(2)),
    (Bind(2, 7), Refused(Status::Error)),
    (Bind(2, 8), Success),
    (Send(2, b"telemetry", 7), Count(9)),
    (Ready(1), Is(true, true)),
    (Receive(1, 4), Bytes(b"tele", 8)),
    (Receive(1, 4), Refused(Status::ErrorTimeout)),
    (Send(2, b"nobody", 9), Refused(Status::Error)),
];

#[test]
fn a_datagram_is_cut_and_its_rest_is_gone(rt: HostRuntime) {
    assert_eq!(rt; follow(&rt, &[&DATAGRAMS]), None);
}

/// What is refused, in the order in which it is looked at.
const REFUSED: [Row; 11] = [
    (Bind(9, 0), Refused(Status::ErrInvalidArgument)),
    (Bind(9, 1), Refused(Status::ErrIncorrectObjType)),
    (Open(SockKind::Stream, 1), Stream(1)),
    (Read(1, 0), Refused(Status::ErrInvalidSize)),
    (Read(1, 1), Refused(Status::ErrIncorrectObjState)),
    (Connect(1, 80), Refused(Status::Error)),
    (Send(1, b"x", 80), Refused(Status::ErrIncorrectObjType)),
    (Bind(1, 80), Success),
    (Bind(1, 80), Refused(Status::ErrIncorrectObjState)),
    (Connect(1, 80), Refused(Status::ErrIncorrectObjState)),
    (Shut(1, How::Both), Refused(Status::ErrIncorrectObjState)),
];

#[test]
fn refusals_come_in_their_order(rt: HostRuntime) {
    assert_eq!(rt; follow(&rt, &[&REFUSED]), None);
}
