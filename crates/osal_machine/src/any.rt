//! A part of any kind.
ghost use Rattle.std.specs.Prelude.{◌≡◌, false, IsTrue, IsOk, IfOk, OnErr};
ghost use Rattle.osal_base.specs.Reply.{replied, success};
ghost use Rattle.osal_call.specs.Call.{takes_memory};
ghost use Rattle.osal_machine.specs.AnyPart.{view_of_any};

use crate::Part;
use osal_base::{Ack, Moment, OsalId, OutOfMemory, Room};
use osal_call::Call;
use osal_condvar::CondvarPart;
use osal_console::ConsolePart;
use osal_io::IoPart;
use osal_mutex::MutexPart;
use osal_queue::QueuePart;
use osal_sem::{BinSemPart, CountSemPart};
use osal_task::TaskPart;
use osal_time::TimePart;
use std::alloc::Global;

/// One of the parts.
#[derive(Drop)]
pub enum AnyPart {
    Task(TaskPart),
    Queue(QueuePart),
    CountSem(CountSemPart),
    BinSem(BinSemPart),
    Mutex(MutexPart),
    Condvar(CondvarPart),
    Time(TimePart),
    Io(IoPart),
    Console(ConsolePart),
}

impl Part for AnyPart {
    ghost view = { view_of_any };

    fn apply(
        &mut self,
        alloc: Global,
        task: OsalId,
        now: Moment,
        call: &Call,
        room: &mut Room,
    ) -> Result<Ack, OutOfMemory> {
        match self {
            AnyPart::Task(part) => part.apply(alloc, task, now, call, room),
            AnyPart::Queue(part) => part.apply(alloc, task, now, call, room),
            AnyPart::CountSem(part) => part.apply(alloc, task, now, call, room),
            AnyPart::BinSem(part) => part.apply(alloc, task, now, call, room),
            AnyPart::Mutex(part) => part.apply(alloc, task, now, call, room),
            AnyPart::Condvar(part) => part.apply(alloc, task, now, call, room),
            AnyPart::Time(part) => part.apply(alloc, task, now, call, room),
            AnyPart::Io(part) => part.apply(alloc, task, now, call, room),
            AnyPart::Console(part) => part.apply(alloc, task, now, call, room),
        }
    }

    fn ready(&self, task: OsalId, now: Moment, part: u32) -> bool {
        match self {
            AnyPart::Task(own) => own.ready(task, now, part),
            AnyPart::Queue(own) => own.ready(task, now, part),
            AnyPart::CountSem(own) => own.ready(task, now, part),
            AnyPart::BinSem(own) => own.ready(task, now, part),
            AnyPart::Mutex(own) => own.ready(task, now, part),
            AnyPart::Condvar(own) => own.ready(task, now, part),
            AnyPart::Time(own) => own.ready(task, now, part),
            AnyPart::Io(own) => own.ready(task, now, part),
            AnyPart::Console(own) => own.ready(task, now, part),
        }
    }

    fn active(&self, id: OsalId) -> bool {
        match self {
            AnyPart::Task(part) => part.active(id),
            AnyPart::Queue(part) => part.active(id),
            AnyPart::CountSem(part) => part.active(id),
            AnyPart::BinSem(part) => part.active(id),
            AnyPart::Mutex(part) => part.active(id),
            AnyPart::Condvar(part) => part.active(id),
            AnyPart::Time(part) => part.active(id),
            AnyPart::Io(part) => part.active(id),
            AnyPart::Console(part) => part.active(id),
        }
    }

    fn goes(&self, task: OsalId) -> bool {
        match self {
            AnyPart::Task(part) => part.goes(task),
            _ => false,
        }
    }
}
