//! What lines on sockets and selects are read as, and why others are refused.
use crate::files::{app_with, call_of};
use crate::texts::{
    first_words, has_bodies, in_a_handler, is_refused, is_wrong, may_not_have, reads_as,
};
use osal_base::{How, Mode, SockKind, Timeout};
use osal_call::NumberWord;
use osal_script::{App, Register, ScriptCall};
use std::alloc::Global;
use std::process::Abort;
use std::test::Fail;

/// The lines of a body, each of them a call.
const LINES: [&str; 3] = [
    "socket_open $s stream\nsocket_bind $s 5000\nsocket_listen $s\nsocket_accept $c $s check\nsocket_recv $c 16 check -> 3 \"abc\"\nsocket_shutdown $c both\nclose $c",
    "socket_open $d dgram\nsocket_connect $d 0x1388\nsocket_send $d \"a\" 5000\nsocket_send $d fill 1024 0 65535 -> 1024",
    "select_one $d r check\nselect_one $d w check -> OS_SUCCESS 2\nselect_multi $s,$d - check\nselect_multi - $s check\nselect_multi - - check -> OS_ERROR_TIMEOUT",
];

#[test]
fn every_line_is_read(rt: HostRuntime) -> Result<(), Fail> {
    for lines in LINES {
        let wanted = first_words(rt.alloc(), lines)?;
        let same = reads_as(&rt, rt.alloc(), lines, wanted.as_slice())?;
        assert!(rt; same, "{lines}");
    }
    Ok(())
}

/// Whether the first line opens a socket of this kind, under the first register.
fn opens(app: &App, wanted: SockKind) -> bool {
    match call_of(app) {
        Some(ScriptCall::SocketOpen { register, kind }) => {
            register.index() == 0 && *kind == wanted
        }
        _ => false,
    }
}

#[test]
fn a_socket_is_of_a_kind(rt: HostRuntime) -> Result<(), Fail> {
    for (line, kind) in [
        ("socket_open $s stream", SockKind::Stream),
        ("socket_open $s dgram -> 0", SockKind::Dgram),
    ] {
        let app = app_with(&rt, rt.alloc(), line)?;
        assert!(rt; opens(&app, kind), "{line}");
    }
    Ok(())
}

/// Whether the first line is a call with this port, on the first register.
fn has_port(app: &App, called: NumberWord, port: u32) -> bool {
    match call_of(app) {
        Some(ScriptCall::Number { word, id, number }) => {
            *word == called && id.index() == 0 && *number == port
        }
        _ => false,
    }
}

/// Lines with a port, and the port: whether there is one is for the call to tell.
const PORTS: [(&str, NumberWord, u32); 4] = [
    ("socket_bind $s 5000", NumberWord::SocketBind, 5000),
    ("socket_bind $s 0", NumberWord::SocketBind, 0),
    ("socket_connect $s 0xffff", NumberWord::SocketConnect, 65535),
    (
        "socket_connect $s 4294967295",
        NumberWord::SocketConnect,
        4294967295,
    ),
];

#[test]
fn a_port_is_a_number(rt: HostRuntime) -> Result<(), Fail> {
    for (line, word, port) in PORTS {
        let app = app_with(&rt, rt.alloc(), line)?;
        assert!(rt; has_port(&app, word, port), "{line}");
    }
    Ok(())
}

/// Whether the first line accepts with these registers and this wait.
fn accepts(app: &App, sets: usize, on: usize, until: Timeout) -> bool {
    match call_of(app) {
        Some(ScriptCall::SocketAccept { register, id, wait }) => {
            register.index() == sets && id.index() == on && *wait == until
        }
        _ => false,
    }
}

#[test]
fn a_connection_that_is_accepted_has_a_register(rt: HostRuntime) -> Result<(), Fail> {
    let other = app_with(&rt, rt.alloc(), "socket_accept $c $s 7")?;
    assert!(rt; accepts(&other, 0, 1, Timeout::Ms(7)));
    let same = app_with(&rt, rt.alloc(), "socket_accept $s $s pend")?;
    assert!(rt; accepts(&same, 0, 0, Timeout::Pend));
    Ok(())
}

/// Whether the first line sends this payload to this port.
fn sends(app: &App, wanted: &[u8], to: u32) -> bool {
    match call_of(app) {
        Some(ScriptCall::SocketSend { payload, port, .. }) => {
            payload.as_slice() == wanted && *port == to
        }
        _ => false,
    }
}

/// Sends, with their payloads and ports.
const SENDS: [(&str, &[u8], u32); 4] = [
    ("socket_send $d \"a\\x00\" 5000", b"a\x00", 5000),
    ("socket_send $d \"\" 0 -> 0", b"", 0),
    ("socket_send $d fill 3 0x41 4294967295", b"AAA", 4294967295),
    ("socket_send $d fill 0 7 0x10", b"", 16),
];

#[test]
fn a_payload_is_sent_to_a_port(rt: HostRuntime) -> Result<(), Fail> {
    for (line, payload, port) in SENDS {
        let app = app_with(&rt, rt.alloc(), line)?;
        assert!(rt; sends(&app, payload, port), "{line}");
    }
    Ok(())
}

/// Whether the first line receives with this room and this wait.
fn receives(app: &App, room: u32, until: Timeout) -> bool {
    match call_of(app) {
        Some(ScriptCall::SocketRecv { n, wait, .. }) => *n == room && *wait == until,
        _ => false,
    }
}

#[test]
fn bytes_are_received_into_a_room(rt: HostRuntime) -> Result<(), Fail> {
    let some = app_with(&rt, rt.alloc(), "socket_recv $s 0x400 pend")?;
    assert!(rt; receives(&some, 1024, Timeout::Pend));
    let none = app_with(&rt, rt.alloc(), "socket_recv $s 0 7")?;
    assert!(rt; receives(&none, 0, Timeout::Ms(7)));
    Ok(())
}

/// Whether the first line shuts these ways down.
fn shuts_down(app: &App, wanted: How) -> bool {
    match call_of(app) {
        Some(ScriptCall::SocketShutdown { how, .. }) => *how == wanted,
        _ => false,
    }
}

#[test]
fn a_shutdown_is_of_one_way_or_both(rt: HostRuntime) -> Result<(), Fail> {
    for (line, how) in [
        ("socket_shutdown $s read", How::Read),
        ("socket_shutdown $s write", How::Write),
        ("socket_shutdown $s both -> 0", How::Both),
    ] {
        let app = app_with(&rt, rt.alloc(), line)?;
        assert!(rt; shuts_down(&app, how), "{line}");
    }
    Ok(())
}

/// Whether the first line selects for this, with this wait.
fn selects(app: &App, asked: Mode, until: Timeout) -> bool {
    match call_of(app) {
        Some(ScriptCall::SelectOne { mode, wait, .. }) => *mode == asked && *wait == until,
        _ => false,
    }
}

#[test]
fn a_select_of_one_stream_asks_to_read_or_to_write(rt: HostRuntime) -> Result<(), Fail> {
    for (line, mode, wait) in [
        ("select_one $s r check", Mode::R, Timeout::Check),
        ("select_one $s w pend", Mode::W, Timeout::Pend),
        ("select_one $s rw 5 -> 0 3", Mode::Rw, Timeout::Ms(5)),
    ] {
        let app = app_with(&rt, rt.alloc(), line)?;
        assert!(rt; selects(&app, mode, wait), "{line}");
    }
    Ok(())
}

/// Whether these registers have these numbers.
fn are(registers: &[Register], wanted: &[usize]) -> bool {
    registers.len() == wanted.len()
        && registers
            .iter()
            .zip(wanted)
            .all(|(register, number)| register.index() == *number)
}

/// Whether the first line selects among the streams of these registers.
fn selects_among(app: &App, to_read: &[usize], to_write: &[usize]) -> bool {
    match call_of(app) {
        Some(ScriptCall::SelectMulti { reads, writes, .. }) => {
            are(reads.as_slice(), to_read) && are(writes.as_slice(), to_write)
        }
        _ => false,
    }
}

/// Selects among streams, with the numbers of their registers: those to read are named first.
const SETS: [(&str, &[usize], &[usize]); 6] = [
    ("select_multi - - check", &[], &[]),
    ("select_multi $a - check", &[0], &[]),
    ("select_multi - $a,$b check", &[], &[0, 1]),
    ("select_multi $a,$b $c,$a check", &[0, 1], &[2, 0]),
    ("select_multi $b,$a,$b,$b $a check", &[0, 1, 0, 0], &[1]),
    ("select_multi $_,$0a $0a pend -> 0", &[0, 1], &[1]),
];

#[test]
fn a_set_names_registers_in_order(rt: HostRuntime) -> Result<(), Fail> {
    for (line, reads, writes) in SETS {
        let app = app_with(&rt, rt.alloc(), line)?;
        assert!(rt; selects_among(&app, reads, writes), "{line}");
    }
    Ok(())
}

/// The name of the register of that number, which is below 36.
fn name_of(number: u8) -> u8 {
    if number < 26 {
        b'a' + number
    } else {
        b'0' + number % 10
    }
}

/// An application that selects with so many registers to read, of the names up to the one of that number.
fn select_of(alloc: Global, count: u8, last: u8) -> Result<Vec<u8>, Fail> {
    let mut text = Vec::from_slice(alloc, b"osal-app 1\ntask main\nselect_multi $a".as_slice())?;
    let mut number = 0;
    for _ in 1..count {
        number = if number < last { number + 1 } else { 0 };
        text.extend_from_slice(b",$".as_slice())?;
        text.push(name_of(number))?;
    }
    text.extend_from_slice(b" - check\nend\n".as_slice())?;
    Ok(text)
}

#[test]
fn a_set_has_at_most_64_registers(rt: HostRuntime) -> Result<(), Fail> {
    let most = select_of(rt.alloc(), 64, 0)?;
    assert!(rt; has_bodies(&rt, rt.alloc(), most.as_slice(), 1));
    let more = select_of(rt.alloc(), 65, 0)?;
    assert!(rt; is_refused(&rt, rt.alloc(), more.as_slice(), 3, "argument"));
    Ok(())
}

#[test]
fn the_registers_of_sets_count_among_those_of_the_body(rt: HostRuntime) -> Result<(), Fail> {
    let all = select_of(rt.alloc(), 64, 31)?;
    assert!(rt; has_bodies(&rt, rt.alloc(), all.as_slice(), 1));
    let more = select_of(rt.alloc(), 33, 32)?;
    assert!(rt; is_refused(&rt, rt.alloc(), more.as_slice(), 3, "many"));
    Ok(())
}

/// Lines of sockets with wrong arguments.
const WRONG_SOCKETS: [&str; 12] = [
    "socket_open $s",
    "socket_open stream",
    "socket_open $s file",
    "socket_open $s \"stream\"",
    "socket_open $s stream 1",
    "socket_bind $s",
    "socket_bind $s \"5000\"",
    "socket_listen $s 5",
    "socket_connect $s 4294967296",
    "socket_accept $s check",
    "socket_accept $c $s 0",
    "socket_accept $c $s check 1",
];

#[test]
fn wrong_arguments_of_sockets_are_refused(rt: HostRuntime) -> Result<(), Fail> {
    for line in WRONG_SOCKETS {
        let wrong = is_wrong(&rt, rt.alloc(), line)?;
        assert!(rt; wrong, "{line}");
    }
    Ok(())
}

/// Sends, receptions and shutdowns with wrong arguments.
const WRONG_SENDS: [&str; 12] = [
    "socket_send $s \"a\"",
    "socket_send $s a 1",
    "socket_send $s \"a\" 1 1",
    "socket_send $s fill 1 2",
    "socket_send $s fill 1 2 -1",
    "socket_send $s fill 8193 0 1",
    "socket_send $s fill 1 2 3 4",
    "socket_recv $s 8",
    "socket_recv $s 8 0",
    "socket_recv $s check 8",
    "socket_shutdown $s",
    "socket_shutdown $s all",
];

#[test]
fn wrong_sends_and_receptions_are_refused(rt: HostRuntime) -> Result<(), Fail> {
    for line in WRONG_SENDS {
        let wrong = is_wrong(&rt, rt.alloc(), line)?;
        assert!(rt; wrong, "{line}");
    }
    Ok(())
}

/// Selects with wrong arguments.
const WRONG_SELECTS: [&str; 14] = [
    "select_one $s check",
    "select_one $s rw",
    "select_one $s x check",
    "select_one $a,$b r check",
    "select_multi $a check",
    "select_multi $a - - check",
    "select_multi $a, - check",
    "select_multi ,$a - check",
    "select_multi , - check",
    "select_multi $a,,$b - check",
    "select_multi $a,- - check",
    "select_multi -- - check",
    "select_multi $a, $b check",
    "select_multi - a check",
];

#[test]
fn wrong_selects_are_refused(rt: HostRuntime) -> Result<(), Fail> {
    for line in WRONG_SELECTS {
        let wrong = is_wrong(&rt, rt.alloc(), line)?;
        assert!(rt; wrong, "{line}");
    }
    Ok(())
}

#[test]
fn a_handler_does_not_wait_for_a_socket(rt: HostRuntime) -> Result<(), Fail> {
    for line in [
        "socket_recv $s 8 pend",
        "socket_accept $c $s 1",
        "select_one $s r pend",
        "select_multi $s - 7",
    ] {
        let refused = may_not_have(&rt, rt.alloc(), line, "argument")?;
        assert!(rt; refused, "{line}");
    }
    Ok(())
}

#[test]
fn a_handler_makes_every_other_call_on_sockets(rt: HostRuntime) -> Result<(), Fail> {
    for lines in LINES {
        let text = in_a_handler(rt.alloc(), lines)?;
        assert!(rt; has_bodies(&rt, rt.alloc(), text.as_slice(), 2), "{lines}");
    }
    Ok(())
}
