//! The machine of all parts under one hand.
ghost use Rattle.std.specs.Prelude.{◌≡◌, false, IsOk, IfOk, OnErr};
ghost use Rattle.osal_base.specs.Limits.{Fits};
ghost use Rattle.osal_base.specs.Reply.{replied, success};
ghost use Rattle.osal_task.specs.Tasks.{goes};
ghost use Rattle.osal_call.specs.Call.{takes_memory};
ghost use Rattle.osal_console.specs.Console.{is_pending};
ghost use Rattle.osal_machine.specs.Step.{opening, step, is_ready, is_active};
ghost use Rattle.osal_machine.specs.Deadlines.{next_deadline};
ghost use Rattle.osal_machine.specs.Views.{All};

use crate::Part;
use osal_base::{Ack, Limits, Moment, OsalId, OutOfMemory, Room};
use osal_call::{Call, part_of, part_of_id};
use osal_condvar::CondvarPart;
use osal_console::ConsolePart;
use osal_io::IoPart;
use osal_mutex::MutexPart;
use osal_object::sooner;
use osal_queue::QueuePart;
use osal_sem::{BinSemPart, CountSemPart};
use osal_task::TaskPart;
use osal_time::TimePart;
use std::alloc::Global;
use std::marker::Model;

/// The parts, each with its own objects.
#[derive(Drop)]
pub struct Whole {
    tasks: TaskPart,
    queues: QueuePart,
    count_sems: CountSemPart,
    bin_sems: BinSemPart,
    mutexes: MutexPart,
    condvars: CondvarPart,
    time: TimePart,
    io: IoPart,
    console: ConsolePart,
}

impl Model for Whole {
    ghost use Rattle.osal_machine.specs.Step.{MachineState};
    ghost use Rattle.std.specs.Coded.{codes};
    ghost use Rattle.osal_object.specs.Code.{objects_code};
    ghost use Rattle.osal_io.specs.contracts.part.IoPart as of_io;

    ghost Value = { MachineState };

    ghost coded = { Prim.hlevel (codes, objects_code, of_io.the_row.coded) };

    ghost view = { λ a. record { tasks = a.tasks; queues = a.queues; count_sems = a.count_sems; bin_sems = a.bin_sems; mutexes = a.mutexes; condvars = a.condvars; time = a.time; io = a.io; console = a.console } };

    ghost invariant = { λ a. Unit {0} };
}

impl Whole {
    /// A machine without objects but the console, which has taken the memory for its tables.
    pub fn open(alloc: Global, limits: &Limits) -> Result<Whole, OutOfMemory>
        requires { Fits limits.now }
        ensures { IfOk result (λ whole. whole ≡ opening limits.now) }
    {
        let (tasks, queues) = open_tasks_and_queues(alloc, limits)?;
        let (count_sems, bin_sems, mutexes) = open_locks(alloc, limits)?;
        let (condvars, time) = open_condvars_and_time(alloc, limits)?;
        let (io, console) = open_io_and_console(alloc, limits)?;
        Ok(Whole {
            tasks,
            queues,
            count_sems,
            bin_sems,
            mutexes,
            condvars,
            time,
            io,
            console,
        })
    }

    /// Makes a call of a task: one step of the machine. The bytes of the reply are left in the room.
    ///
    /// A queue and a volume take memory when they are made, a directory when it is opened, and ask for it last: where
    /// there is none, nothing changes, and nothing else would have refused the call.
    pub fn apply(
        &mut self,
        alloc: Global,
        task: OsalId,
        now: Moment,
        call: &Call,
        room: &mut Room,
    ) -> Result<Ack, OutOfMemory>
        ensures step { IfOk result (λ ack. (replied ack room.new, self.new) ≡ step self.old task now call.now) }
        ensures kept { OnErr result (self.new ≡ self.old) }
        ensures asked_last { OnErr result ((step self.old task now call.now).0.answer ≡ success.answer) }
        ensures memory { takes_memory call.now ≡ false → IsOk result }
    {
        match part_of(call) {
            0 => Part::apply(&mut self.tasks, alloc, task, now, call, room),
            1 => Part::apply(&mut self.queues, alloc, task, now, call, room),
            2 => Part::apply(&mut self.count_sems, alloc, task, now, call, room),
            3 => Part::apply(&mut self.bin_sems, alloc, task, now, call, room),
            4 => Part::apply(&mut self.mutexes, alloc, task, now, call, room),
            5 => Part::apply(&mut self.condvars, alloc, task, now, call, room),
            6 => Part::apply(&mut self.time, alloc, task, now, call, room),
            7 => Part::apply(&mut self.io, alloc, task, now, call, room),
            _ => Part::apply(&mut self.console, alloc, task, now, call, room),
        }
    }

    /// Whether the end of a task's wait in the part of that number would not answer `Waits`.
    pub fn ready(&self, task: OsalId, now: Moment, part: u32) -> bool
        ensures { result ≡ is_ready self.now task now part }
    {
        match part {
            1 => self.queues.ready(task, now, part),
            2 => self.count_sems.ready(task, now, part),
            3 => self.bin_sems.ready(task, now, part),
            4 => self.mutexes.ready(task, now, part),
            5 => self.condvars.ready(task, now, part),
            7 => self.io.ready(task, now, part),
            6 | 8 => true,
            _ => self.tasks.ready(task, now, part),
        }
    }

    /// Whether an identifier is active, in the part of its type.
    pub fn active(&self, id: OsalId) -> bool
        ensures { result ≡ is_active self.now id }
    {
        match part_of_id(id) {
            0 => self.tasks.active(id),
            1 => self.queues.active(id),
            2 => self.count_sems.active(id),
            3 => self.bin_sems.active(id),
            4 => self.mutexes.active(id),
            5 => self.condvars.active(id),
            6 => self.time.active(id),
            7 => self.io.active(id),
            _ => self.console.active(id),
        }
    }

    /// Whether a task is active and not marked for deletion.
    pub fn goes(&self, task: OsalId) -> bool
        ensures { result ≡ goes self.now.tasks task }
    {
        self.tasks.goes(task)
    }

    /// The moment that it is.
    pub fn moment(&self) -> Moment
        ensures { result ≡ self.now.time.moment }
    {
        self.time.moment()
    }

    /// Whether bytes are pending on the console.
    pub fn is_console_pending(&self) -> bool
        ensures { result ≡ is_pending self.now.console }
    {
        self.console.is_pending()
    }

    /// The least deadline of an open wait behind the moment, in milliseconds, if there is one. It looks at each wait.
    pub fn next_deadline(&self) -> Option<u64>
        ensures { result ≡ next_deadline self.now }
    {
        let now = self.moment();
        let tasks = self.tasks.next_deadline(now);
        let queues = self.queues.next_deadline(now);
        let count_sems = self.count_sems.next_deadline(now);
        let bin_sems = self.bin_sems.next_deadline(now);
        let mutexes = self.mutexes.next_deadline(now);
        let condvars = self.condvars.next_deadline(now);
        let io = self.io.next_deadline(now);
        let of_locks = sooner(mutexes, sooner(condvars, io));
        let of_sems = sooner(count_sems, sooner(bin_sems, of_locks));
        sooner(tasks, sooner(queues, of_sems))
    }
}

// The parts are opened in groups, since what is owned is let go at each `?`, which the check follows.
fn open_tasks_and_queues(
    alloc: Global,
    limits: &Limits,
) -> Result<(TaskPart, QueuePart), OutOfMemory>
    requires { Fits limits.now }
    ensures tasks { IfOk result (λ opened. opened.0 ≡ (opening limits.now).tasks) }
    ensures queues { IfOk result (λ opened. opened.1 ≡ (opening limits.now).queues) }
{
    Ok((
        TaskPart::open(alloc, limits)?,
        QueuePart::open(alloc, limits)?,
    ))
}

fn open_locks(
    alloc: Global,
    limits: &Limits,
) -> Result<(CountSemPart, BinSemPart, MutexPart), OutOfMemory>
    requires { Fits limits.now }
    ensures count_sems { IfOk result (λ opened. opened.0 ≡ (opening limits.now).count_sems) }
    ensures bin_sems { IfOk result (λ opened. opened.1 ≡ (opening limits.now).bin_sems) }
    ensures mutexes { IfOk result (λ opened. opened.2 ≡ (opening limits.now).mutexes) }
{
    Ok((
        CountSemPart::open(alloc, limits)?,
        BinSemPart::open(alloc, limits)?,
        MutexPart::open(alloc, limits)?,
    ))
}

fn open_condvars_and_time(
    alloc: Global,
    limits: &Limits,
) -> Result<(CondvarPart, TimePart), OutOfMemory>
    requires { Fits limits.now }
    ensures condvars { IfOk result (λ opened. opened.0 ≡ (opening limits.now).condvars) }
    ensures time { IfOk result (λ opened. opened.1 ≡ (opening limits.now).time) }
{
    Ok((
        CondvarPart::open(alloc, limits)?,
        TimePart::open(alloc, limits)?,
    ))
}

fn open_io_and_console(alloc: Global, limits: &Limits) -> Result<(IoPart, ConsolePart), OutOfMemory>
    requires { Fits limits.now }
    ensures io { IfOk result (λ opened. opened.0 ≡ (opening limits.now).io) }
    ensures console { IfOk result (λ opened. opened.1 ≡ (opening limits.now).console) }
{
    Ok((
        IoPart::open(alloc, limits)?,
        ConsolePart::open(alloc, limits)?,
    ))
}

impl Part for Whole {
    ghost view = { λ whole. All whole };

    fn apply(
        &mut self,
        alloc: Global,
        task: OsalId,
        now: Moment,
        call: &Call,
        room: &mut Room,
    ) -> Result<Ack, OutOfMemory> {
        self.apply(alloc, task, now, call, room)
    }

    fn ready(&self, task: OsalId, now: Moment, part: u32) -> bool {
        self.ready(task, now, part)
    }

    fn active(&self, id: OsalId) -> bool {
        self.active(id)
    }

    fn goes(&self, task: OsalId) -> bool {
        self.goes(task)
    }
}
