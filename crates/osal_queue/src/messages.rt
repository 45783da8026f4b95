//! How queues are made and removed, and how messages go in and come out.
ghost use Rattle.std.specs.Prelude.{◌≡◌, IsOk, IfOk, OnErr};
ghost use Rattle.osal_base.specs.Reply.{replied, success};
ghost use Rattle.osal_object.specs.Outcomes.{Remove};
ghost use Rattle.osal_queue.specs.Queues.{done, queue_create, queue_put, queue_get};

use crate::{Queue, QueuePart};
use osal_base::{Ack, Bytes, Moment, Name, OsalId, OutOfMemory, Room, Status, Timeout};
use osal_idtable::{status_of_name, status_of_reserve};
use osal_object::{Standing, WaitRecord};
use std::alloc::Global;

impl QueuePart {
    /// `OS_QueueCreate`: makes a queue for `depth` messages of at most `size` bytes and gives its identifier.
    ///
    /// It takes the memory for all of them, once nothing else refuses it. The search for the name and for a free slot
    /// costs at most the capacity each, twice.
    pub fn queue_create(
        &mut self,
        alloc: Global,
        task: OsalId,
        now: Moment,
        name: &Bytes,
        depth: u32,
        size: u32,
        room: &mut Room,
    ) -> Result<Ack, OutOfMemory>
        ensures step { IfOk result (λ ack. (replied ack room.new, self.new)
            ≡ done self.old task now (queue_create task name.now.bytes depth size)) }
        ensures unchanged { OnErr result (self.new ≡ self.old) }
        ensures asked_last { OnErr result
            ((done self.old task now (queue_create task name.now.bytes depth size)).0.answer ≡ success.answer) }
    {
        room.clear();
        let name = match Name::new(name.as_slice()) {
            Ok(name) => name,
            Err(fault) => return Ok(Ack::refused(status_of_name(fault))),
        };
        if !Queue::may_be_sized(depth, size) {
            return Ok(Ack::refused(Status::QueueInvalidSize));
        }
        if let Err(fault) = self.objects.peek(&name) {
            return Ok(Ack::refused(status_of_reserve(fault)));
        }
        let queue = Queue::new(alloc, depth, size, task)?;
        Ok(self.objects.create(name, queue))
    }

    /// `OS_QueueDelete`: removes a queue that nobody holds, with its messages. It takes no memory.
    pub fn queue_delete(
        &mut self,
        _alloc: Global,
        task: OsalId,
        now: Moment,
        id: OsalId,
        room: &mut Room,
    ) -> Result<Ack, OutOfMemory>
        ensures step { IfOk result (λ ack. (replied ack room.new, self.new)
            ≡ done self.old task now (Remove id)) }
        ensures memory { IsOk result }
    {
        room.clear();
        Ok(self.objects.delete(id))
    }

    /// `OS_QueuePut`: puts a message behind those of a queue. It takes no memory.
    pub fn queue_put(
        &mut self,
        _alloc: Global,
        task: OsalId,
        now: Moment,
        id: OsalId,
        payload: &Bytes,
        room: &mut Room,
    ) -> Result<Ack, OutOfMemory>
        ensures step { IfOk result (λ ack. (replied ack room.new, self.new)
            ≡ done self.old task now (queue_put id payload.now.bytes)) }
        ensures memory { IsOk result }
    {
        room.clear();
        let message = payload.as_slice();
        if message.is_empty() {
            return Ok(Ack::refused(Status::ErrInvalidSize));
        }
        let (size, full) = match self.objects.lookup(id) {
            Ok(queue) => (queue.size(), queue.is_full()),
            Err(_) => return Ok(Ack::refused(Status::ErrInvalidId)),
        };
        if message.len() > size as usize {
            return Ok(Ack::refused(Status::QueueInvalidSize));
        }
        if full {
            return Ok(Ack::refused(Status::QueueFull));
        }
        self.objects.object_mut(id).push(message);
        Ok(Ack::success())
    }

    /// `OS_QueueGet`: takes the oldest message out, and gives it with its length. It takes no memory.
    ///
    /// The room `n` has to be that of the queue's longest message. At an empty queue the task waits, and `wait_end`
    /// answers. Meanwhile the queue is held.
    pub fn queue_get(
        &mut self,
        _alloc: Global,
        task: OsalId,
        now: Moment,
        id: OsalId,
        n: u32,
        wait: Timeout,
        room: &mut Room,
    ) -> Result<Ack, OutOfMemory>
        ensures step { IfOk result (λ ack. (replied ack room.new, self.new)
            ≡ done self.old task now (queue_get id n wait)) }
        ensures memory { IsOk result }
    {
        room.clear();
        let size = match self.objects.lookup(id) {
            Ok(queue) => queue.size(),
            Err(_) => return Ok(Ack::refused(Status::ErrInvalidId)),
        };
        if n < size {
            return Ok(Ack::refused(Status::QueueInvalidSize));
        }
        if self.has_message(id) {
            return Ok(self.take_first(id, room));
        }
        if wait.is_check() {
            return Ok(Ack::refused(Status::QueueEmpty));
        }
        let record = WaitRecord::new(task, id, Standing::new(Some(id)), wait, now);
        Ok(self.objects.begin(record))
    }
}
