//! A machine whose parts are asked row by row: at a moment a task asks, and the machine answers.

ghost use Rattle.osal_base.specs.Limits.{Fits};

use osal_base::{Ack, Answer, Bytes, Limits, Moment, OsalId, OutOfMemory, Room, Status, Timeout};
use osal_call::{Call, NameWord, NumberWord, ObjectWord, ValueWord, WaitWord};
use osal_machine::Whole;
use std::alloc::Global;
use std::process::Abort;
use std::test::Fail;

/// The tasks that ask.
pub const A: u32 = 0x0001_0001;

pub const B: u32 = 0x0001_0002;

pub const C: u32 = 0x0001_0003;

/// What an information tells of an object that A or B made.
pub const BY_A: u64 = 0x0001_0001;

pub const BY_B: u64 = 0x0001_0002;

/// A name of the greatest length, and one that is longer by a byte.
pub const NINETEEN: &[u8] = b"nineteen-bytes-long";

pub const LONG: &[u8] = b"a-name-of-20-bytes--";

/// The parts in which a task waits, by their numbers.
pub const TASKS: u32 = 0;

pub const QUEUES: u32 = 1;

pub const COUNT_SEMS: u32 = 2;

pub const BIN_SEMS: u32 = 3;

pub const MUTEXES: u32 = 4;

pub const CONDVARS: u32 = 5;

/// The number of no part.
pub const NO_PART: u32 = 9;

/// What a row asks: calls by the shape of their arguments, and what is seen without a call.
#[derive(Drop)]
pub enum Ask {
    /// A call on an object.
    On(ObjectWord, u32),
    /// The same so many times over, each with the answer of the row.
    Often(u32, ObjectWord, u32),
    /// A call under a name.
    Named(NameWord, &'static [u8]),
    /// A call under a name, with a value.
    Valued(ValueWord, &'static [u8], u32),
    /// A call on an object, with a wait.
    Timed(WaitWord, u32, Timeout),
    /// A call on an object, with a number.
    Numbered(NumberWord, u32, u32),
    /// A name, a stack size and a priority.
    TaskCreate(&'static [u8], u32, u32),
    TaskExit,
    TaskDelay(u32),
    Checkpoint,
    /// A name, a depth and a size.
    QueueCreate(&'static [u8], u32, u32),
    QueuePut(u32, &'static [u8]),
    /// A queue, a room and a wait.
    QueueGet(u32, u32, Timeout),
    /// A name, a timebase and the number of a handler.
    TimerAdd(&'static [u8], u32, u32),
    /// A timer, a start and an interval.
    TimerSet(u32, u32, u32),
    Advance(u64),
    /// The end of the task's wait in that part.
    End(u32),
    /// The same wait is given up.
    Abandon(u32),
    /// Whether that wait is ready to end.
    Ready(u32),
    /// The next deadline, or 0.
    Deadline,
    /// Whether the identifier is active.
    Active(u32),
    /// Whether the task goes on.
    Goes(u32),
    /// The moment that it is.
    Now,
}

use Ask::{
    Abandon, Active, Advance, Deadline, End, Goes, Named, Now, Numbered, Often, On, QueueCreate,
    QueueGet, QueuePut, Ready, TaskCreate, TaskDelay, TaskExit, Timed, TimerAdd, TimerSet, Valued,
};

/// A firing: the number of its timer, its backlog and the number of its handler.
pub type Firing = (u32, u32, u32);

/// What a row wants.
#[derive(Drop)]
pub enum Want {
    Done,
    Gives(u32),
    /// A number with bytes beside it.
    Tells(u64, &'static [u8]),
    /// As many firings, and their bytes.
    Fires(&'static [Firing]),
    Refused(Status),
    Waits,
    Go,
    Deleted,
}

/// The moment in milliseconds, the task, what it asks and what it wants.
pub type Row = (u64, u32, Ask, Want);

/// Who asks, when, and with what memory.
#[derive(Clone, Copy)]
pub struct Turn {
    alloc: Global,
    task: OsalId,
    now: Moment,
}

/// What rows ask a machine. What is owned behind a trait costs a proof no more than its bounds, and the drop of a whole
/// machine is long.
trait Machine: Sized {
    fn open(alloc: Global, limits: &Limits) -> Result<Self, OutOfMemory>
        requires { Fits limits.now };

    /// Makes a call. The bytes of the reply are left in the room.
    fn answer(&mut self, turn: Turn, call: Call, room: &mut Room) -> Result<Ack, OutOfMemory>;

    /// What is seen without a call.
    fn look(&self, turn: Turn, ask: &Ask) -> Option<u64>;
}

impl Machine for Whole {
    fn open(alloc: Global, limits: &Limits) -> Result<Whole, OutOfMemory> {
        Whole::open(alloc, limits)
    }

    fn answer(&mut self, turn: Turn, call: Call, room: &mut Room) -> Result<Ack, OutOfMemory> {
        self.apply(turn.alloc, turn.task, turn.now, &call, room)
    }

    fn look(&self, turn: Turn, ask: &Ask) -> Option<u64> {
        match ask {
            Ready(part) => Some(u64::from(self.ready(turn.task, turn.now, *part))),
            Deadline => Some(self.next_deadline().unwrap_or(0)),
            Active(id) => Some(u64::from(self.active(OsalId::of_raw(*id)))),
            Goes(id) => Some(u64::from(self.goes(OsalId::of_raw(*id)))),
            Now => Some(self.moment().ms),
            _ => None,
        }
    }
}

// The call of tasks, queues and timers that has no word, with its arguments. What only looks makes none.
fn own_call(alloc: Global, ask: &Ask) -> Result<Call, OutOfMemory> {
    Ok(match ask {
        TaskCreate(name, stack, priority) => Call::TaskCreate {
            name: Bytes::copy(alloc, *name)?,
            body: 7,
            stack: *stack,
            priority: *priority,
        },
        TaskExit => Call::TaskExit,
        TaskDelay(ms) => Call::TaskDelay { ms: *ms },
        QueueCreate(name, depth, size) => Call::QueueCreate {
            name: Bytes::copy(alloc, *name)?,
            depth: *depth,
            size: *size,
        },
        QueuePut(id, payload) => Call::QueuePut {
            id: OsalId::of_raw(*id),
            payload: Bytes::copy(alloc, *payload)?,
        },
        QueueGet(id, n, wait) => Call::QueueGet {
            id: OsalId::of_raw(*id),
            n: *n,
            wait: *wait,
        },
        TimerAdd(name, timebase, handler) => Call::TimerAdd {
            name: Bytes::copy(alloc, *name)?,
            timebase: OsalId::of_raw(*timebase),
            handler: *handler,
        },
        TimerSet(id, start, interval) => Call::TimerSet {
            id: OsalId::of_raw(*id),
            start: *start,
            interval: *interval,
        },
        _ => Call::Checkpoint,
    })
}

// The call that a row makes.
fn call_of(alloc: Global, ask: &Ask) -> Result<Call, OutOfMemory> {
    match ask {
        On(word, id) | Often(_, word, id) => Ok((*word).call(OsalId::of_raw(*id))),
        Named(word, name) => Ok((*word).call(Bytes::copy(alloc, *name)?)),
        Valued(word, name, value) => Ok((*word).call(Bytes::copy(alloc, *name)?, *value)),
        Timed(word, id, wait) => Ok((*word).call(OsalId::of_raw(*id), *wait)),
        Numbered(word, id, number) => Ok((*word).call(OsalId::of_raw(*id), *number)),
        Advance(to) => Ok(Call::Advance { to: *to }),
        End(part) => Ok(Call::WaitEnd { part: *part }),
        Abandon(part) => Ok(Call::WaitAbandon { part: *part }),
        other => own_call(alloc, other),
    }
}

// Makes the call, or looks. The bytes of the reply are left in the room.
fn make<M: Machine>(
    machine: &mut M,
    turn: Turn,
    ask: &Ask,
    room: &mut Room,
) -> Result<Ack, OutOfMemory> {
    if let Some(number) = machine.look(turn, ask) {
        room.clear();
        return Ok(Ack::gives(number));
    }
    machine.answer(turn, call_of(turn.alloc, ask)?, room)
}

/// The bytes of firings.
pub fn bytes_of_firings(alloc: Global, firings: &[Firing]) -> Result<Vec<u8>, OutOfMemory> {
    let mut bytes = Vec::new(alloc);
    for (timer, backlog, handler) in firings {
        bytes.extend_from_slice(&timer.to_be_bytes())?;
        bytes.extend_from_slice(&backlog.to_be_bytes())?;
        bytes.extend_from_slice(&handler.to_be_bytes())?;
    }
    Ok(bytes)
}

// Whether an answer has this code and this number.
fn has(ack: Ack, answer: Answer, number: u64) -> bool {
    ack.answer == answer && ack.number == number
}

// Whether an answer and the bytes beside it are these firings.
fn fires(alloc: Global, ack: Ack, bytes: &[u8], firings: &[Firing]) -> bool {
    match bytes_of_firings(alloc, firings) {
        Ok(wanted) => {
            has(ack, Answer::Code(0), firings.len() as u64) && bytes == wanted.as_slice()
        }
        Err(_) => false,
    }
}

// Whether an answer and the bytes beside it are this reply.
fn is_reply(alloc: Global, ack: Ack, bytes: &[u8], want: &Want) -> bool {
    match want {
        Want::Done => has(ack, Answer::Code(0), 0) && bytes.is_empty(),
        Want::Gives(number) => has(ack, Answer::Code(0), u64::from(*number)) && bytes.is_empty(),
        Want::Tells(number, beside) => has(ack, Answer::Code(0), *number) && bytes == *beside,
        Want::Fires(firings) => fires(alloc, ack, bytes, *firings),
        Want::Refused(status) => has(ack, Answer::Code(status.number()), 0) && bytes.is_empty(),
        Want::Waits => has(ack, Answer::Waits, 0) && bytes.is_empty(),
        Want::Go => has(ack, Answer::Go, 0) && bytes.is_empty(),
        Want::Deleted => has(ack, Answer::Deleted, 0) && bytes.is_empty(),
    }
}

// Whether the machine answers a row so.
fn answers_once<M: Machine>(alloc: Global, machine: &mut M, row: &Row, room: &mut Room) -> bool {
    let (ms, task, ask, want) = row;
    let turn = Turn {
        alloc,
        task: OsalId::of_raw(*task),
        now: Moment { ms: *ms },
    };
    match make(machine, turn, ask, room) {
        Ok(ack) => is_reply(alloc, ack, room.as_slice(), want),
        Err(_) => false,
    }
}

// Whether the machine answers a row so, as often as it is asked.
fn answers<M: Machine>(alloc: Global, machine: &mut M, row: &Row, room: &mut Room) -> bool {
    let times = match &row.2 {
        Often(times, _, _) => *times,
        _ => 1,
    };
    for _ in 0..times {
        if !answers_once(alloc, machine, row, room) {
            return false;
        }
    }
    true
}

// Follows the rows of each table in turn.
fn follow_on<H: Abort + AllocGlobal, M: Machine>(rt: &H, machine: &mut M, tables: &[&[Row]]) {
    let mut room = Room::new();
    for (table, rows) in tables.iter().enumerate() {
        for (at, row) in rows.iter().enumerate() {
            assert!(rt;
                answers(rt.alloc(), machine, row, &mut room),
                "table {table}, row {at}"
            );
        }
    }
}

// Follows the tables in a new machine.
fn follow_anew<H: Abort + AllocGlobal, M: Machine + Drop>(
    rt: &H,
    limits: &Limits,
    tables: &[&[Row]],
) -> Result<(), Fail> {
    assert!(rt; limits.fits());
    let mut machine = M::open(rt.alloc(), limits)?;
    follow_on(rt, &mut machine, tables);
    Ok(())
}

/// Follows the tables in a machine of these limits.
pub fn follow_in<H: Abort + AllocGlobal>(
    rt: &H,
    limits: &Limits,
    tables: &[&[Row]],
) -> Result<(), Fail> {
    follow_anew::<H, Whole>(rt, limits, tables)
}

/// Follows the tables in a machine for so many tasks, and for so many objects of each kind.
pub fn follow<H: Abort + AllocGlobal>(
    rt: &H,
    tasks: u32,
    objects: u32,
    tables: &[&[Row]],
) -> Result<(), Fail> {
    let limits = Limits {
        tasks,
        queues: objects,
        count_sems: objects,
        bin_sems: objects,
        mutexes: objects,
        condvars: objects,
        timebases: objects,
        ..Limits::version1()
    };
    follow_in(rt, &limits, tables)
}
