//! The queue part.
ghost use Rattle.std.specs.Prelude.{◌≡◌, IsOk, IfOk, is_some, ◌==◌, IsTrue, OnErr, false};
ghost use Rattle.osal_base.specs.Limits.{Fits};
ghost use Rattle.osal_base.specs.Reply.{replied, success};
ghost use Rattle.osal_idtable.specs.Table.{active_at};
ghost use Rattle.osal_object.specs.Outcomes.{Find, Hold, Release};
ghost use Rattle.osal_queue.specs.Queues.{no_queues, done, queue_info, queue_step};
ghost use Rattle.osal_call.specs.Call.{part_of, takes_memory};

use crate::Queue;
use osal_base::{Ack, Bytes, Limits, Moment, ObjType, OsalId, OutOfMemory, Room, Status};
use osal_call::Call;
use osal_object::Objects;
use std::alloc::Global;
use std::marker::Model;

/// The queues, and the gets that wait.
#[derive(Drop)]
pub struct QueuePart {
    pub(crate) objects: Objects<Queue, OsalId>,
}

impl Model for QueuePart {
    ghost use Rattle.osal_queue.specs.Queues.{QueueState};
    ghost use Rattle.std.specs.Coded.{codes};
    ghost use Rattle.osal_object.specs.Code.{objects_code};

    ghost Value = { QueueState };

    ghost coded = { Prim.hlevel (codes, objects_code) };

    ghost view = { λ a. record { objects = a.objects } };

    ghost invariant = { λ a. Unit {0} };
}

impl QueuePart {
    /// No queues, with the memory to name as many as the limits say, and for a get of each task.
    pub fn open(alloc: Global, limits: &Limits) -> Result<QueuePart, OutOfMemory>
        requires { Fits limits.now }
        ensures { IfOk result (λ part. part ≡ no_queues limits.now) }
    {
        let objects = Objects::new(alloc, ObjType::Queue, limits.queues, limits.tasks)?;
        Ok(QueuePart { objects })
    }

    /// `OS_QueueGetIdByName`: gives the identifier of a queue.
    ///
    /// It compares as many names as the logarithm of the capacity.
    pub fn queue_find(
        &mut self,
        _alloc: Global,
        task: OsalId,
        now: Moment,
        name: &Bytes,
        room: &mut Room,
    ) -> Result<Ack, OutOfMemory>
        ensures step { IfOk result (λ ack. (replied ack room.new, self.new)
            ≡ done self.old task now (Find name.now.bytes)) }
        ensures memory { IsOk result }
    {
        room.clear();
        Ok(self.objects.find(name.as_slice()))
    }

    /// `OS_QueueGetInfo`: gives the task that made a queue, and the queue's name.
    pub fn queue_info(
        &mut self,
        _alloc: Global,
        task: OsalId,
        now: Moment,
        id: OsalId,
        room: &mut Room,
    ) -> Result<Ack, OutOfMemory>
        ensures step { IfOk result (λ ack. (replied ack room.new, self.new)
            ≡ done self.old task now (queue_info id)) }
        ensures memory { IsOk result }
    {
        room.clear();
        let creator = match self.objects.lookup(id) {
            Ok(queue) => queue.creator(),
            Err(_) => return Ok(Ack::refused(Status::ErrInvalidId)),
        };
        if let Ok(Some(name)) = self.objects.name_of(id) {
            room.append(name.as_slice());
        }
        Ok(Ack::gives(u64::from(creator.raw())))
    }

    /// Holds a queue, so that it is not removed.
    pub fn hold(
        &mut self,
        _alloc: Global,
        task: OsalId,
        now: Moment,
        id: OsalId,
        room: &mut Room,
    ) -> Result<Ack, OutOfMemory>
        ensures step { IfOk result (λ ack. (replied ack room.new, self.new)
            ≡ done self.old task now (Hold id)) }
        ensures memory { IsOk result }
    {
        room.clear();
        Ok(self.objects.hold(id))
    }

    /// Gives a hold of a queue back.
    pub fn release(
        &mut self,
        _alloc: Global,
        task: OsalId,
        now: Moment,
        id: OsalId,
        room: &mut Room,
    ) -> Result<Ack, OutOfMemory>
        ensures step { IfOk result (λ ack. (replied ack room.new, self.new)
            ≡ done self.old task now (Release id)) }
        ensures memory { IsOk result }
    {
        room.clear();
        Ok(self.objects.release(id))
    }

    /// Whether an identifier is one of an active queue.
    pub fn active(&self, id: OsalId) -> bool
        ensures { result ≡ is_some (active_at self.now.objects.table id) }
    {
        self.objects.is_active(id)
    }

    /// Makes a call that is the part's own. The bytes of the reply are left in the room.
    pub fn apply(
        &mut self,
        alloc: Global,
        task: OsalId,
        now: Moment,
        call: &Call,
        room: &mut Room,
    ) -> Result<Ack, OutOfMemory>
        requires { IsTrue (part_of call.now == 1) }
        ensures step { IfOk result (λ ack. (replied ack room.new, self.new) ≡ queue_step self.old task now call.now) }
        ensures kept { OnErr result (self.new ≡ self.old) }
        ensures asked_last { OnErr result ((queue_step self.old task now call.now).0.answer ≡ success.answer) }
        ensures memory { takes_memory call.now ≡ false → IsOk result }
    {
        match call {
            Call::QueueCreate { name, depth, size } => self.queue_create(
                alloc, task, now, name, *depth, *size, room,
            ),
            Call::QueueDelete { id } => self.queue_delete(alloc, task, now, *id, room),
            Call::QueuePut { id, payload } => self.queue_put(alloc, task, now, *id, payload, room),
            Call::QueueGet { id, n, wait } => self.queue_get(
                alloc, task, now, *id, *n, *wait, room,
            ),
            Call::QueueFind { name } => self.queue_find(alloc, task, now, name, room),
            Call::QueueInfo { id } => self.queue_info(alloc, task, now, *id, room),
            Call::Hold { id } => self.hold(alloc, task, now, *id, room),
            Call::Release { id } => self.release(alloc, task, now, *id, room),
            Call::WaitEnd { part } => self.wait_end(alloc, task, now, *part, room),
            Call::WaitAbandon { part } => self.wait_abandon(alloc, task, now, *part, room),
            _ => unreachable!(),
        }
    }
}
