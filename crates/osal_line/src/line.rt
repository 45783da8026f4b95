//! A call line: what it calls, and what its reply leaves in the registers.
ghost use Rattle.std.specs.Prelude.{◌≡◌};
ghost use Rattle.osal_base.specs.Reply.{reply_of};
ghost use Rattle.osal_line.specs.Bare.{is_tick_line};
ghost use Rattle.osal_line.specs.Calls as calls;
ghost use Rattle.osal_line.specs.Held.{registers_after};

use crate::{Expect, Literal, Register, RegisterSet};
use osal_base::{Access, Answer, How, Mode, OpenFlags, Reply, SockKind, Timeout, Whence};
use osal_call::{
    BareWord, CallWord, NameWord, NumberWord, ObjectWord, PathWord, PathsWord, ValueWord, WaitWord,
};

/// A call as a line writes it, by the shape of its arguments: registers stand where identifiers will.
#[derive(Drop)]
pub enum ScriptCall {
    /// A call on an object.
    Object {
        word: ObjectWord,
        id: Register,
    },
    /// A call with a name, whose success sets the register.
    Name {
        word: NameWord,
        register: Register,
        name: Literal,
    },
    /// A call on an object that may wait.
    Wait {
        word: WaitWord,
        id: Register,
        wait: Timeout,
    },
    /// A call with a name and a value, whose success sets the register.
    Value {
        word: ValueWord,
        register: Register,
        name: Literal,
        value: u32,
    },
    /// A call on an object, with a number.
    Number {
        word: NumberWord,
        id: Register,
        number: u32,
    },
    /// A call with a path or a device.
    Path {
        word: PathWord,
        path: Literal,
    },
    /// A call with two paths, or a device and a path.
    Paths {
        word: PathsWord,
        path: Literal,
        to: Literal,
    },
    /// A call without arguments.
    Bare {
        word: BareWord,
    },
    TaskCreate {
        register: Register,
        name: Literal,
        /// The number of the body that the task runs: one that is declared later.
        body: u32,
        /// In bytes.
        stack: u32,
        priority: u32,
    },
    TaskExit,
    TaskDelay {
        /// In milliseconds.
        ms: u32,
    },
    QueueCreate {
        register: Register,
        name: Literal,
        /// The most messages that it holds.
        depth: u32,
        /// The most bytes of a message.
        size: u32,
    },
    QueuePut {
        id: Register,
        payload: Literal,
    },
    QueueGet {
        id: Register,
        /// The room for a message, in bytes.
        n: u32,
        wait: Timeout,
    },
    TimerAdd {
        register: Register,
        name: Literal,
        timebase: Register,
        /// The number of the handler that runs where the timer fires: one that is declared later.
        handler: u32,
    },
    /// To these microseconds.
    TimerSet {
        id: Register,
        start: u32,
        interval: u32,
    },
    Mkfs {
        device: Literal,
        label: Literal,
        /// Of 512 bytes each.
        blocks: u32,
    },
    Open {
        register: Register,
        path: Literal,
        flags: OpenFlags,
        access: Access,
    },
    Read {
        id: Register,
        /// The room for the bytes.
        n: u32,
        wait: Timeout,
    },
    Write {
        id: Register,
        payload: Literal,
    },
    Lseek {
        id: Register,
        /// In bytes.
        offset: i64,
        whence: Whence,
    },
    SocketOpen {
        register: Register,
        kind: SockKind,
    },
    SocketAccept {
        register: Register,
        /// The socket that listens.
        id: Register,
        wait: Timeout,
    },
    SocketSend {
        id: Register,
        payload: Literal,
        /// The port that it goes to.
        port: u32,
    },
    SocketRecv {
        id: Register,
        /// The room for the bytes.
        n: u32,
        wait: Timeout,
    },
    SocketShutdown {
        id: Register,
        how: How,
    },
    SelectOne {
        id: Register,
        mode: Mode,
        wait: Timeout,
    },
    SelectMulti {
        /// The streams that it waits to read.
        reads: RegisterSet,
        /// The streams that it waits to write.
        writes: RegisterSet,
        wait: Timeout,
    },
    ConsoleWrite {
        payload: Literal,
    },
}

/// A call line.
#[derive(Drop)]
pub struct Line {
    /// Its number in the file, from 1.
    pub number: u32,
    pub call: ScriptCall,
    pub expect: Option<Expect>,
}

impl ScriptCall {
    /// Which call it is.
    pub fn word(&self) -> CallWord
        ensures { result ≡ calls.word_of self.now }
    {
        match self {
            ScriptCall::Object { word, .. } => CallWord::Object(*word),
            ScriptCall::Name { word, .. } => CallWord::Name(*word),
            ScriptCall::Wait { word, .. } => CallWord::Wait(*word),
            ScriptCall::Value { word, .. } => CallWord::Value(*word),
            ScriptCall::Number { word, .. } => CallWord::Number(*word),
            ScriptCall::Path { word, .. } => CallWord::Path(*word),
            ScriptCall::Paths { word, .. } => CallWord::Paths(*word),
            ScriptCall::Bare { word } => CallWord::Bare(*word),
            ScriptCall::TaskCreate { .. } => CallWord::TaskCreate,
            ScriptCall::TaskExit => CallWord::TaskExit,
            ScriptCall::TaskDelay { .. } => CallWord::TaskDelay,
            ScriptCall::QueueCreate { .. } => CallWord::QueueCreate,
            ScriptCall::QueuePut { .. } => CallWord::QueuePut,
            ScriptCall::QueueGet { .. } => CallWord::QueueGet,
            ScriptCall::TimerAdd { .. } => CallWord::TimerAdd,
            ScriptCall::TimerSet { .. } => CallWord::TimerSet,
            ScriptCall::Mkfs { .. } => CallWord::Mkfs,
            ScriptCall::Open { .. } => CallWord::Open,
            ScriptCall::Read { .. } => CallWord::Read,
            ScriptCall::Write { .. } => CallWord::Write,
            ScriptCall::Lseek { .. } => CallWord::Lseek,
            ScriptCall::SocketOpen { .. } => CallWord::SocketOpen,
            ScriptCall::SocketAccept { .. } => CallWord::SocketAccept,
            ScriptCall::SocketSend { .. } => CallWord::SocketSend,
            ScriptCall::SocketRecv { .. } => CallWord::SocketRecv,
            ScriptCall::SocketShutdown { .. } => CallWord::SocketShutdown,
            ScriptCall::SelectOne { .. } => CallWord::SelectOne,
            ScriptCall::SelectMulti { .. } => CallWord::SelectMulti,
            ScriptCall::ConsoleWrite { .. } => CallWord::ConsoleWrite,
        }
    }

    /// Its name, as lines and reports write it.
    pub fn name(&self) -> &'static [u8]
        ensures { result.now ≡ calls.call_name self.now }
    {
        self.word().text()
    }

    /// The register that the call's success sets: a call that makes or finds an object has one.
    pub fn register(&self) -> Option<Register>
        ensures { result ≡ calls.register_of self.now }
    {
        match self {
            ScriptCall::Name { register, .. }
            | ScriptCall::Value { register, .. }
            | ScriptCall::TaskCreate { register, .. }
            | ScriptCall::QueueCreate { register, .. }
            | ScriptCall::TimerAdd { register, .. }
            | ScriptCall::Open { register, .. }
            | ScriptCall::SocketOpen { register, .. }
            | ScriptCall::SocketAccept { register, .. } => Some(*register),
            ScriptCall::Object { .. }
            | ScriptCall::Wait { .. }
            | ScriptCall::Number { .. }
            | ScriptCall::Path { .. }
            | ScriptCall::Paths { .. }
            | ScriptCall::Bare { .. }
            | ScriptCall::TaskExit
            | ScriptCall::TaskDelay { .. }
            | ScriptCall::QueuePut { .. }
            | ScriptCall::QueueGet { .. }
            | ScriptCall::TimerSet { .. }
            | ScriptCall::Mkfs { .. }
            | ScriptCall::Read { .. }
            | ScriptCall::Write { .. }
            | ScriptCall::Lseek { .. }
            | ScriptCall::SocketSend { .. }
            | ScriptCall::SocketRecv { .. }
            | ScriptCall::SocketShutdown { .. }
            | ScriptCall::SelectOne { .. }
            | ScriptCall::SelectMulti { .. }
            | ScriptCall::ConsoleWrite { .. } => None,
        }
    }

    /// Whether the call is a tick.
    pub fn is_tick(&self) -> bool
        ensures { result ≡ is_tick_line self.now }
    {
        matches!(
            self,
            ScriptCall::Number {
                word: NumberWord::TimebaseTick,
                ..
            },
        )
    }
}

/// Sets the register that a line's success sets, where the reply is success.
pub fn set_register(registers: &mut [u32; 32], call: &ScriptCall, reply: &Reply)
    ensures { registers.new ≡ registers_after (calls.register_of call.now) (reply_of reply.now) registers.old }
{
    if let (Some(register), Answer::Code(0)) = (call.register(), reply.answer) {
        registers[register.index()] = (reply.number % (1 << 32)) as u32;
    }
}
