//! The calls of OSAL's `osapi-task.h`, and the checkpoint.
ghost use Rattle.std.specs.Prelude.{◌≡◌, IsOk, IfOk, ◌==◌, IsTrue};
ghost use Rattle.osal_base.specs.Reply.{replied};
ghost use Rattle.osal_object.specs.Outcomes.{Find, Remove};
ghost use Rattle.osal_task.specs.Tasks.{done, task_create, task_delete, task_set_priority, task_info, checkpoint};
ghost use Rattle.osal_call.specs.Call.{part_of};
ghost use Rattle.osal_task.specs.Calls.{task_step};

use crate::{Task, TaskPart};
use osal_base::{Ack, Bytes, Moment, Name, OsalId, OutOfMemory, Room, Status};
use osal_call::Call;
use osal_idtable::status_of_name;
use std::alloc::Global;

/// The highest number that a priority may have.
const LOWEST_PRIORITY: u32 = 255;

impl TaskPart {
    /// `OS_TaskCreate`: makes a task that runs the body of that number, and gives its identifier.
    ///
    /// It takes no memory; the search for the name and for a free slot costs at most the capacity each.
    pub fn task_create(
        &mut self,
        _alloc: Global,
        task: OsalId,
        now: Moment,
        name: &Bytes,
        body: u32,
        stack: u32,
        priority: u32,
        room: &mut Room,
    ) -> Result<Ack, OutOfMemory>
        ensures step { IfOk result (λ ack. (replied ack room.new, self.new)
            ≡ done self.old task now (task_create name.now.bytes body stack priority)) }
        ensures memory { IsOk result }
    {
        room.clear();
        let name = match Name::new(name.as_slice()) {
            Ok(name) => name,
            Err(fault) => return Ok(Ack::refused(status_of_name(fault))),
        };
        if priority > LOWEST_PRIORITY {
            return Ok(Ack::refused(Status::ErrInvalidPriority));
        }
        let made = Task {
            body,
            stack,
            priority,
            marked: false,
        };
        Ok(self.objects.create(name, made))
    }

    /// `OS_TaskExit`: removes the calling task, unless somebody holds it. It takes no memory.
    pub fn task_exit(
        &mut self,
        _alloc: Global,
        task: OsalId,
        now: Moment,
        room: &mut Room,
    ) -> Result<Ack, OutOfMemory>
        ensures step { IfOk result (λ ack. (replied ack room.new, self.new) ≡ done self.old task now (Remove task)) }
        ensures memory { IsOk result }
    {
        room.clear();
        Ok(self.objects.delete(task))
    }

    /// `OS_TaskDelete`: marks a task that nobody holds; it is removed at its next checkpoint.
    pub fn task_delete(
        &mut self,
        _alloc: Global,
        task: OsalId,
        now: Moment,
        id: OsalId,
        room: &mut Room,
    ) -> Result<Ack, OutOfMemory>
        ensures step { IfOk result (λ ack. (replied ack room.new, self.new) ≡ done self.old task now (task_delete id)) }
        ensures memory { IsOk result }
    {
        room.clear();
        let task = match self.objects.lookup(id) {
            Ok(task) => *task,
            Err(_) => return Ok(Ack::refused(Status::ErrInvalidId)),
        };
        if task.marked {
            return Ok(Ack::refused(Status::ErrIncorrectObjState));
        }
        if self.objects.is_held(id) {
            return Ok(Ack::refused(Status::ErrObjectInUse));
        }
        self.objects.put(
            id,
            Task {
                marked: true,
                ..task
            },
        );
        Ok(Ack::success())
    }

    /// `OS_TaskSetPriority`: the priority is reported and steers nothing.
    pub fn task_set_priority(
        &mut self,
        _alloc: Global,
        task: OsalId,
        now: Moment,
        id: OsalId,
        priority: u32,
        room: &mut Room,
    ) -> Result<Ack, OutOfMemory>
        ensures step { IfOk result (λ ack. (replied ack room.new, self.new)
            ≡ done self.old task now (task_set_priority id priority)) }
        ensures memory { IsOk result }
    {
        room.clear();
        if priority > LOWEST_PRIORITY {
            return Ok(Ack::refused(Status::ErrInvalidPriority));
        }
        let task = match self.objects.lookup(id) {
            Ok(task) => *task,
            Err(_) => return Ok(Ack::refused(Status::ErrInvalidId)),
        };
        self.objects.put(id, Task { priority, ..task });
        Ok(Ack::success())
    }

    /// `OS_TaskGetIdByName`: gives the identifier of a task.
    ///
    /// It compares as many names as the logarithm of the capacity.
    pub fn task_find(
        &mut self,
        _alloc: Global,
        task: OsalId,
        now: Moment,
        name: &Bytes,
        room: &mut Room,
    ) -> Result<Ack, OutOfMemory>
        ensures step { IfOk result (λ ack. (replied ack room.new, self.new) ≡ done self.old task now (Find name.now.bytes)) }
        ensures memory { IsOk result }
    {
        room.clear();
        Ok(self.objects.find(name.as_slice()))
    }

    /// `OS_TaskGetInfo`: gives the stack size times 256 plus the priority, and the name.
    pub fn task_info(
        &mut self,
        _alloc: Global,
        task: OsalId,
        now: Moment,
        id: OsalId,
        room: &mut Room,
    ) -> Result<Ack, OutOfMemory>
        ensures step { IfOk result (λ ack. (replied ack room.new, self.new) ≡ done self.old task now (task_info id)) }
        ensures memory { IsOk result }
    {
        room.clear();
        let sizes = match self.objects.lookup(id) {
            Ok(task) => task.sizes(),
            Err(_) => return Ok(Ack::refused(Status::ErrInvalidId)),
        };
        Ok(self.objects.info(id, sizes, room))
    }

    /// Tells the calling task whether it goes on, and removes it where it was deleted. It takes no memory.
    pub fn checkpoint(
        &mut self,
        _alloc: Global,
        task: OsalId,
        now: Moment,
        room: &mut Room,
    ) -> Result<Ack, OutOfMemory>
        ensures step { IfOk result (λ ack. (replied ack room.new, self.new) ≡ done self.old task now (checkpoint task)) }
        ensures memory { IsOk result }
    {
        room.clear();
        let marked = match self.objects.lookup(task) {
            Ok(task) => task.marked,
            Err(_) => return Ok(Ack::refused(Status::ErrInvalidId)),
        };
        if !marked {
            return Ok(Ack::goes_on());
        }
        let _removed = self.objects.delete(task);
        Ok(Ack::deleted())
    }

    /// Makes a call that is the part's own. The bytes of the reply are left in the room.
    pub fn apply(
        &mut self,
        alloc: Global,
        task: OsalId,
        now: Moment,
        call: &Call,
        room: &mut Room,
    ) -> Result<Ack, OutOfMemory>
        requires { IsTrue (part_of call.now == 0) }
        ensures step { IfOk result (λ ack. (replied ack room.new, self.new) ≡ task_step self.old task now call.now) }
        ensures memory { IsOk result }
    {
        match call {
            Call::TaskCreate {
                name,
                body,
                stack,
                priority,
            } => self.task_create(alloc, task, now, name, *body, *stack, *priority, room),
            Call::TaskExit => self.task_exit(alloc, task, now, room),
            Call::TaskDelete { id } => self.task_delete(alloc, task, now, *id, room),
            Call::TaskSetPriority { id, priority } => {
                self.task_set_priority(alloc, task, now, *id, *priority, room)
            }
            Call::TaskFind { name } => self.task_find(alloc, task, now, name, room),
            Call::TaskInfo { id } => self.task_info(alloc, task, now, *id, room),
            Call::TaskDelay { ms } => self.task_delay(alloc, task, now, *ms, room),
            Call::Checkpoint => self.checkpoint(alloc, task, now, room),
            Call::Hold { id } => self.hold(alloc, task, now, *id, room),
            Call::Release { id } => self.release(alloc, task, now, *id, room),
            Call::WaitEnd { part } => self.wait_end(alloc, task, now, *part, room),
            Call::WaitAbandon { part } => self.wait_abandon(alloc, task, now, *part, room),
            _ => unreachable!(),
        }
    }
}
