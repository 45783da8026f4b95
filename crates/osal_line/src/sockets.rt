//! The call lines on sockets that have arguments of their own.
ghost use Rattle.std.specs.Prelude.{◌≡◌, map, option_map, IfOk};
ghost use Rattle.osal_line.specs.Sockets as sockets;

use crate::ScriptCall;
use crate::registers::Registers;
use crate::transfers::{id_and_payload, id_and_room};
use crate::values::{number_of, wait_of};
use osal_base::{How, OutOfMemory, SockKind};
use std::alloc::Global;

/// What a socket carries.
fn sock_kind_of(word: &[u8]) -> Option<SockKind>
    ensures { result ≡ sockets.sock_kind_of word.now }
{
    if word == b"stream".as_slice() {
        return Some(SockKind::Stream);
    }
    if word == b"dgram".as_slice() {
        return Some(SockKind::Dgram);
    }
    None
}

/// Which ways of a connection are shut down.
fn how_of(word: &[u8]) -> Option<How>
    ensures { result ≡ sockets.how_of word.now }
{
    if word == b"read".as_slice() {
        return Some(How::Read);
    }
    if word == b"write".as_slice() {
        return Some(How::Write);
    }
    if word == b"both".as_slice() {
        return Some(How::Both);
    }
    None
}

/// An opening: the register and what the socket carries.
pub fn socket_open_of(
    words: &[&[u8]],
    registers: &mut Registers,
) -> Result<Option<ScriptCall>, OutOfMemory>
    ensures { IfOk result (λ made.
        sockets.socket_open_of (map (λ word. word.now) words.now) registers.old
        ≡ option_map (λ call. (call, registers.new)) made) }
{
    if words.len() != 2 {
        return Ok(None);
    }
    let Some(register) = registers.register_at(words[0])? else {
        return Ok(None);
    };
    let Some(kind) = sock_kind_of(words[1]) else {
        return Ok(None);
    };
    Ok(Some(ScriptCall::SocketOpen { register, kind }))
}

/// An acceptance: the register, the socket that listens and the wait.
pub fn socket_accept_of(
    words: &[&[u8]],
    registers: &mut Registers,
) -> Result<Option<ScriptCall>, OutOfMemory>
    ensures { IfOk result (λ made.
        sockets.socket_accept_of (map (λ word. word.now) words.now) registers.old
        ≡ option_map (λ call. (call, registers.new)) made) }
{
    if words.len() != 3 {
        return Ok(None);
    }
    let Some(register) = registers.register_at(words[0])? else {
        return Ok(None);
    };
    let Some(id) = registers.register_at(words[1])? else {
        return Ok(None);
    };
    let Some(wait) = wait_of(words[2]) else {
        return Ok(None);
    };
    Ok(Some(ScriptCall::SocketAccept { register, id, wait }))
}

/// A send: the socket, the payload, which is one word or three, and the port.
pub fn socket_send_of(
    alloc: Global,
    words: &[&[u8]],
    registers: &mut Registers,
) -> Result<Option<ScriptCall>, OutOfMemory>
    ensures { IfOk result (λ made.
        sockets.socket_send_of (map (λ word. word.now) words.now) registers.old
        ≡ option_map (λ call. (call, registers.new)) made) }
{
    if words.len() == 3 {
        return sent_to(alloc, &words[..2], words[2], registers);
    }
    if words.len() == 5 {
        return sent_to(alloc, &words[..4], words[4], registers);
    }
    Ok(None)
}

/// A socket, a payload and the port that it goes to.
fn sent_to(
    alloc: Global,
    words: &[&[u8]],
    port: &[u8],
    registers: &mut Registers,
) -> Result<Option<ScriptCall>, OutOfMemory>
    ensures { IfOk result (λ made.
        sockets.sent_to (map (λ word. word.now) words.now) port.now registers.old
        ≡ option_map (λ call. (call, registers.new)) made) }
{
    let Some((id, payload)) = id_and_payload(alloc, words, registers)? else {
        return Ok(None);
    };
    let Some(port) = number_of(port) else {
        return Ok(None);
    };
    Ok(Some(ScriptCall::SocketSend { id, payload, port }))
}

/// A reception: the socket, the room and the wait.
pub fn socket_recv_of(
    words: &[&[u8]],
    registers: &mut Registers,
) -> Result<Option<ScriptCall>, OutOfMemory>
    ensures { IfOk result (λ made.
        sockets.socket_recv_of (map (λ word. word.now) words.now) registers.old
        ≡ option_map (λ call. (call, registers.new)) made) }
{
    let found = id_and_room(words, registers)?;
    Ok(found.map(|(id, n, wait)| ScriptCall::SocketRecv { id, n, wait }))
}

/// A shutdown: the socket and which ways.
pub fn socket_shutdown_of(
    words: &[&[u8]],
    registers: &mut Registers,
) -> Result<Option<ScriptCall>, OutOfMemory>
    ensures { IfOk result (λ made.
        sockets.socket_shutdown_of (map (λ word. word.now) words.now) registers.old
        ≡ option_map (λ call. (call, registers.new)) made) }
{
    if words.len() != 2 {
        return Ok(None);
    }
    let Some(id) = registers.register_at(words[0])? else {
        return Ok(None);
    };
    let Some(how) = how_of(words[1]) else {
        return Ok(None);
    };
    Ok(Some(ScriptCall::SocketShutdown { id, how }))
}
