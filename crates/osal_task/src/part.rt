//! The task part.
ghost use Rattle.std.specs.Prelude.{◌≡◌, IsOk, IfOk, is_some};
ghost use Rattle.osal_base.specs.Limits.{Fits};
ghost use Rattle.osal_base.specs.Reply.{replied};
ghost use Rattle.osal_idtable.specs.Table.{active_at};
ghost use Rattle.osal_object.specs.Outcomes.{Release};
ghost use Rattle.osal_task.specs.Tasks.{no_tasks, done, sizes_of, hold, goes};

use osal_base::{Ack, Limits, Moment, ObjType, OsalId, OutOfMemory, Room, Status};
use osal_object::Objects;
use std::alloc::Global;
use std::marker::Model;

/// What is kept of a task. Its stack size and priority are reported and steer nothing.
#[derive(Clone, Copy, Debug, PartialEq, Eq)]
pub struct Task {
    /// The number of the body that it runs.
    pub body: u32,
    /// In bytes; 0 is accepted.
    pub stack: u32,
    /// 0 to 255.
    pub priority: u32,
    /// Whether somebody has deleted it: it is removed at its next checkpoint.
    pub marked: bool,
}

impl Task {
    /// The stack size times 256 plus the priority, as information on a task gives them.
    pub(crate) fn sizes(&self) -> u64
        ensures { result ≡ sizes_of self.now }
    {
        u64::from(self.stack) * 256 + u64::from(self.priority)
    }
}

/// The tasks, and the delays that are open.
///
/// A task is `active -> marked -> removed`, or `active -> removed` by its own exit.
#[derive(Drop)]
pub struct TaskPart {
    pub(crate) objects: Objects<Task, ()>,
}

impl Model for TaskPart {
    ghost use Rattle.osal_task.specs.Tasks.{TaskState};
    ghost use Rattle.std.specs.Coded.{codes};
    ghost use Rattle.osal_object.specs.Code.{objects_code};

    ghost Value = { TaskState };

    ghost coded = { Prim.hlevel (codes, objects_code) };

    ghost view = { λ a. record { objects = a.objects } };

    ghost invariant = { λ a. Unit {0} };
}

impl TaskPart {
    /// No tasks, with the memory for as many as the limits say, and for a delay of each.
    pub fn open(alloc: Global, limits: &Limits) -> Result<TaskPart, OutOfMemory>
        requires { Fits limits.now }
        ensures { IfOk result (λ part. part ≡ no_tasks limits.now) }
    {
        let objects = Objects::new(alloc, ObjType::Task, limits.tasks, limits.tasks)?;
        Ok(TaskPart { objects })
    }

    /// Holds a task, so that it is not removed. It takes no memory.
    pub fn hold(
        &mut self,
        _alloc: Global,
        task: OsalId,
        now: Moment,
        id: OsalId,
        room: &mut Room,
    ) -> Result<Ack, OutOfMemory>
        ensures step { IfOk result (λ ack. (replied ack room.new, self.new) ≡ done self.old task now (hold id)) }
        ensures memory { IsOk result }
    {
        room.clear();
        let marked = match self.objects.lookup(id) {
            Ok(task) => task.marked,
            Err(_) => return Ok(Ack::refused(Status::ErrInvalidId)),
        };
        if marked {
            return Ok(Ack::refused(Status::ErrIncorrectObjState));
        }
        Ok(self.objects.hold(id))
    }

    /// Gives a hold of a task back. It takes no memory.
    pub fn release(
        &mut self,
        _alloc: Global,
        task: OsalId,
        now: Moment,
        id: OsalId,
        room: &mut Room,
    ) -> Result<Ack, OutOfMemory>
        ensures step { IfOk result (λ ack. (replied ack room.new, self.new) ≡ done self.old task now (Release id)) }
        ensures memory { IsOk result }
    {
        room.clear();
        Ok(self.objects.release(id))
    }

    /// Whether an identifier is one of an active task.
    pub fn active(&self, id: OsalId) -> bool
        ensures { result ≡ is_some (active_at self.now.objects.table id) }
    {
        self.objects.is_active(id)
    }

    /// Whether a task is active and not marked for deletion.
    pub fn goes(&self, task: OsalId) -> bool
        ensures { result ≡ goes self.now task }
    {
        match self.objects.lookup(task) {
            Ok(task) => !task.marked,
            Err(_) => false,
        }
    }
}
