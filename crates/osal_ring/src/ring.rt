//! A ring of bytes.
ghost use Rattle.std.specs.Prelude.{◌≡◌, ◌-◌, ◌+◌, ◌≤◌, ◌==◌, ◌++◌, length, take, IfOk};
ghost use Rattle.osal_ring.specs.Ring.{empty_ring, with_bytes, without_first};

use circular_buffer::HeapCircularBuffer;
use osal_base::{OutOfMemory, Room};
use std::alloc::Global;
use std::marker::Model;

/// Bytes that are taken in the order in which they were put, whose memory is taken once and for all.
#[derive(Drop)]
pub struct Ring {
    bytes: HeapCircularBuffer<u8>,
}

impl Model for Ring {
    ghost use Rattle.std.specs.Prelude.{◌≤◌, length};
    ghost use Rattle.osal_ring.specs.Ring.{Ring};

    ghost Value = { Ring };

    ghost view = { λ a. record { bytes = a.bytes.items; capacity = a.bytes.capacity } };

    ghost invariant = { λ a. length a.bytes.items ≤ a.bytes.capacity };
}

impl Ring {
    /// A ring without bytes, with the memory for as many as it may come to hold.
    pub fn new(alloc: Global, capacity: u32) -> Result<Ring, OutOfMemory>
        ensures { IfOk result (λ ring. ring ≡ empty_ring capacity) }
    {
        Ok(Ring {
            bytes: HeapCircularBuffer::with_capacity(alloc, capacity as usize)?,
        })
    }

    /// How many bytes are in it.
    pub fn len(&self) -> usize
        ensures value { result ≡ length self.now.bytes }
        ensures within { length self.now.bytes ≤ self.now.capacity }
    {
        self.bytes.len()
    }

    /// Whether no byte is in it.
    pub fn is_empty(&self) -> bool
        ensures { result ≡ (length self.now.bytes == 0) }
    {
        self.bytes.is_empty()
    }

    /// How many more bytes it takes.
    pub fn space(&self) -> usize
        ensures value { result ≡ self.now.capacity - length self.now.bytes }
        ensures whole { length self.now.bytes + result ≡ self.now.capacity }
    {
        self.bytes.capacity() - self.bytes.len()
    }

    /// Puts bytes behind the others. It takes no memory, and costs their number.
    pub fn put(&mut self, bytes: &[u8])
        requires { length self.old.bytes + length bytes.now ≤ self.old.capacity }
        ensures { self.new ≡ with_bytes self.old bytes.now }
    {
        self.bytes.fill_from_slice(bytes);
    }

    /// Moves the oldest bytes behind those in a room. It takes no memory, and costs their number.
    pub fn take(&mut self, count: usize, room: &mut Room)
        requires there { count ≤ length self.old.bytes }
        requires room { length room.old + count ≤ 1024 }
        ensures taken { room.new ≡ room.old ++ take count self.old.bytes }
        ensures left { self.new ≡ without_first self.old count }
    {
        append_front(room, &self.bytes, count);
        self.skip(count);
    }

    /// Lets the oldest bytes go. Its cost is their number at most.
    pub fn skip(&mut self, count: usize)
        requires { count ≤ length self.old.bytes }
        ensures { self.new ≡ without_first self.old count }
    {
        self.bytes.truncate_front(self.bytes.len() - count);
    }
}

// Appends the first bytes of a ring, which may lie in two runs.
fn append_front(room: &mut Room, bytes: &HeapCircularBuffer<u8>, count: usize)
    requires there { count ≤ length bytes.now.items }
    requires room { length room.old + count ≤ 1024 }
    ensures { room.new ≡ room.old ++ take count bytes.now.items }
{
    let (front, back) = bytes.as_slices();
    let in_front = count.min(front.len());
    room.append(&front[..in_front]);
    room.append(&back[..count - in_front]);
}
