//! A ring of messages.
ghost use Rattle.std.specs.Prelude.{◌≡◌, ◌<◌, ◌≤◌, ◌==◌, [], length, nat_le, nat_lt, take, IfOk};
ghost use Rattle.osal_ring.specs.Messages.{messages_limit, no_messages, oldest, with_newest, without_oldest};

use crate::Ring;
use circular_buffer::HeapCircularBuffer;
use osal_base::{OutOfMemory, Room};
use std::alloc::Global;
use std::marker::Model;

/// Messages that are taken in the order in which they were put, whose memory is taken once and for all.
///
/// Each message is copied once on its way in and once on its way out, at a cost that does not depend on their number.
#[derive(Drop)]
pub struct Messages {
    bytes: Ring,
    lengths: HeapCircularBuffer<u16>,
    depth: u32,
    size: u32,
}

impl Model for Messages {
    ghost use Rattle.osal_ring.specs.Messages.{Messages};

    ghost Value = { Messages };

    ghost use Rattle.osal_ring.specs.Stored.{messages_of, IsStored};

    ghost view = { messages_of };

    ghost invariant = { IsStored };
}

impl Messages {
    /// No messages, with the memory for as many of so many bytes as there may come to be.
    pub fn new(alloc: Global, depth: u32, size: u32) -> Result<Messages, OutOfMemory>
        requires depth { depth ≤ messages_limit }
        requires size { size ≤ messages_limit }
        ensures { IfOk result (λ messages. messages ≡ no_messages depth size) }
    {
        let bytes = Ring::new(alloc, depth * size)?;
        let lengths = HeapCircularBuffer::with_capacity(alloc, depth as usize)?;
        Ok(Messages {
            bytes,
            lengths,
            depth,
            size,
        })
    }

    /// The most messages that there may be.
    pub fn depth(&self) -> u32
        ensures { result ≡ self.now.depth }
    {
        self.depth
    }

    /// The most bytes of a message.
    pub fn size(&self) -> u32
        ensures { result ≡ self.now.size }
    {
        self.size
    }

    /// Whether no message is there.
    pub fn is_empty(&self) -> bool
        ensures { result ≡ (length self.now.messages == 0) }
    {
        self.lengths.is_empty()
    }

    /// Whether there are as many messages as there may be.
    pub fn is_full(&self) -> bool
        ensures { result ≡ nat_le self.now.depth (length self.now.messages) }
    {
        self.depth as usize <= self.lengths.len()
    }

    /// Puts a message behind the others. It takes no memory.
    pub fn push(&mut self, message: &[u8])
        requires fits { length message.now ≤ self.old.size }
        requires room { length self.old.messages < self.old.depth }
        ensures { self.new ≡ with_newest self.old message.now }
    {
        self.bytes.put(message);
        self.lengths.push_back(message.len() as u16);
    }

    /// Takes the oldest message out, and moves at most `n` of its bytes to a clear room. It takes no memory.
    pub fn pop(&mut self, n: u32, room: &mut Room)
        requires some { 0 < length self.old.messages }
        requires clear { room.old ≡ [] }
        ensures taken { room.new ≡ take n (oldest self.old.messages) }
        ensures left { self.new ≡ without_oldest self.old }
        ensures short { length (oldest self.old.messages) ≤ self.old.size }
    {
        let length = usize::from(self.lengths.pop_front().unwrap());
        let count = length.min(n as usize);
        self.bytes.take(count, room);
        self.bytes.skip(length - count);
    }
}
