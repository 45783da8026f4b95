//! One queue of messages.
ghost use Rattle.std.specs.Prelude.{◌≡◌, ◌<◌, ◌≤◌, ◌==◌, [], length, nat_le, IfOk, IsTrue};
ghost use Rattle.osal_queue.specs.Queue.{may_be_sized, empty_queue, with_message, with_first};

use osal_base::{OsalId, OutOfMemory, Room};
use osal_ring::Messages;
use std::alloc::Global;
use std::marker::Model;

/// The most messages that a queue holds (`OS_QUEUE_MAX_DEPTH`).
const DEPTH_LIMIT: u32 = 50;

/// The most bytes of a queue's message.
const SIZE_LIMIT: u32 = 1024;

/// A queue of messages, whose memory is taken once and for all when it is made.
///
/// Each message is copied once on its way in and once on its way out, at a cost that does not depend on the depth.
#[derive(Drop)]
pub struct Queue {
    messages: Messages,
    creator: OsalId,
}

impl Model for Queue {
    ghost use Rattle.osal_queue.specs.Queue.{Queue};

    ghost Value = { Queue };

    ghost view = { λ a. record {
      depth = a.messages.depth;
      size = a.messages.size;
      creator = a.creator;
      messages = a.messages.messages;
    } };

    ghost invariant = { λ a. Unit {0} };
}

impl Queue {
    /// Whether a queue may hold so many messages of so many bytes.
    pub fn may_be_sized(depth: u32, size: u32) -> bool
        ensures { result ≡ may_be_sized depth size }
    {
        1 <= depth && depth <= DEPTH_LIMIT && 1 <= size && size <= SIZE_LIMIT
    }

    /// A queue without messages, with the memory for as many bytes as it may come to hold.
    pub fn new(alloc: Global, depth: u32, size: u32, creator: OsalId) -> Result<Queue, OutOfMemory>
        requires { IsTrue (may_be_sized depth size) }
        ensures { IfOk result (λ queue. queue ≡ empty_queue depth size creator) }
    {
        let messages = Messages::new(alloc, depth, size)?;
        Ok(Queue { messages, creator })
    }

    /// The most messages that it holds.
    pub fn depth(&self) -> u32
        ensures { result ≡ self.now.depth }
    {
        self.messages.depth()
    }

    /// The most bytes of a message.
    pub fn size(&self) -> u32
        ensures { result ≡ self.now.size }
    {
        self.messages.size()
    }

    /// The task that made it.
    pub fn creator(&self) -> OsalId
        ensures { result ≡ self.now.creator }
    {
        self.creator
    }

    /// Whether it holds no message.
    pub fn is_empty(&self) -> bool
        ensures { result ≡ (length self.now.messages == 0) }
    {
        self.messages.is_empty()
    }

    /// Whether it holds as many messages as it may.
    pub fn is_full(&self) -> bool
        ensures { result ≡ nat_le self.now.depth (length self.now.messages) }
    {
        self.messages.is_full()
    }

    /// Puts a message behind the others. It takes no memory.
    pub fn push(&mut self, message: &[u8])
        requires fits { length message.now ≤ self.old.size }
        requires room { length self.old.messages < self.old.depth }
        ensures { self.new ≡ with_message self.old message.now }
    {
        self.messages.push(message);
    }

    /// Moves the oldest message into a clear room. It takes no memory.
    pub fn pop(&mut self, room: &mut Room)
        requires some { 0 < length self.old.messages }
        requires clear { room.old ≡ [] }
        ensures { self.old ≡ with_first room.new self.new }
    {
        self.messages.pop(self.messages.size(), room);
    }
}
