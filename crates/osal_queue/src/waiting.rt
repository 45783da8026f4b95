//! How the gets of messages wait and end.
ghost use Rattle.std.specs.Prelude.{◌≡◌, [], IsOk, IfOk, IfSome, IsTrue};
ghost use Rattle.osal_base.specs.Reply.{replied};
ghost use Rattle.osal_object.specs.Deadlines.{deadlines_in, least};
ghost use Rattle.osal_queue.specs.Queues.{queue_at, wait_end_step, wait_abandon_step, ready};
ghost use Rattle.osal_queue.specs.Taking.{has_message, take_step};

use crate::QueuePart;
use osal_base::{Ack, Moment, OsalId, OutOfMemory, Room, Status};
use std::alloc::Global;

impl QueuePart {
    // Whether a queue is there and has a message.
    pub(crate) fn has_message(&self, id: OsalId) -> bool
        ensures { result ≡ has_message (queue_at self.now id) }
    {
        match self.objects.lookup(id) {
            Ok(queue) => !queue.is_empty(),
            Err(_) => false,
        }
    }

    // Takes the oldest message of a queue out, into a clear room.
    pub(crate) fn take_first(&mut self, id: OsalId, room: &mut Room) -> Ack
        requires some { IsTrue (has_message (queue_at self.old id)) }
        requires clear { room.old ≡ [] }
        ensures { (replied result room.new, self.new) ≡ take_step self.old id }
    {
        self.objects.object_mut(id).pop(room);
        Ack::gives(room.as_slice().len() as u64)
    }

    /// Ends the get of the calling task where its queue has a message, or it is due.
    ///
    /// Else it answers `Waits` and changes nothing. It takes no memory.
    pub fn wait_end(
        &mut self,
        _alloc: Global,
        task: OsalId,
        now: Moment,
        part: u32,
        room: &mut Room,
    ) -> Result<Ack, OutOfMemory>
        requires own { part ≡ 1 }
        ensures step { IfOk result (λ ack. (replied ack room.new, self.new)
            ≡ wait_end_step self.old task now) }
        ensures memory { IsOk result }
    {
        room.clear();
        let (id, due) = match self.objects.wait_of(task) {
            Some(wait) => (wait.what, wait.is_due(now)),
            None => return Ok(Ack::refused(Status::ErrIncorrectObjState)),
        };
        if self.has_message(id) {
            let ack = self.take_first(id, room);
            self.objects.end(task);
            return Ok(ack);
        }
        if due {
            self.objects.end(task);
            return Ok(Ack::refused(Status::QueueTimeout));
        }
        Ok(Ack::waits())
    }

    /// Gives the get of the calling task up. It takes no memory.
    pub fn wait_abandon(
        &mut self,
        _alloc: Global,
        task: OsalId,
        _now: Moment,
        part: u32,
        room: &mut Room,
    ) -> Result<Ack, OutOfMemory>
        requires own { part ≡ 1 }
        ensures step { IfOk result (λ ack. (replied ack room.new, self.new)
            ≡ wait_abandon_step self.old task) }
        ensures memory { IsOk result }
    {
        room.clear();
        Ok(self.objects.abandon(task))
    }

    /// Whether the end of the task's get would not answer `Waits`.
    pub fn ready(&self, task: OsalId, now: Moment, part: u32) -> bool
        requires { part ≡ 1 }
        ensures { result ≡ ready self.now task now }
    {
        match self.objects.wait_of(task) {
            Some(wait) => self.has_message(wait.what) || wait.is_due(now),
            None => true,
        }
    }

    /// The least deadline of an open get behind a moment, in milliseconds, if there is one.
    pub fn next_deadline(&self, now: Moment) -> Option<u64>
        ensures { result ≡ least (deadlines_in now self.now.objects.waits.records) }
    {
        self.objects.next_deadline(now)
    }
}
