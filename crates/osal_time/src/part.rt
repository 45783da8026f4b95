//! The time part.
ghost use Rattle.std.specs.Prelude.{◌≡◌, IsOk, IfOk, ◌==◌, IsTrue};
ghost use Rattle.osal_base.specs.Limits.{Fits};
ghost use Rattle.osal_base.specs.Reply.{replied};
ghost use Rattle.osal_time.specs.Time.{time_start, is_timer, is_active, Advance, done, held, released};
ghost use Rattle.osal_call.specs.Call.{part_of};
ghost use Rattle.osal_time.specs.Calls.{time_step};

use crate::{Timebase, Timer};
use osal_base::{Ack, Limits, Moment, ObjType, OsalId, OutOfMemory, Room, Status};
use osal_call::Call;
use osal_object::Objects;
use std::alloc::Global;
use std::marker::Model;

/// The timebases, the timers, and the moment that it is: virtual time goes on where somebody advances it.
///
/// No call of this part waits, none but `open` takes memory, and one that is refused changes nothing. A timebase runs
/// by its own ticks, whatever the moment is.
#[derive(Drop)]
pub struct TimePart {
    pub(crate) timebases: Objects<Timebase, ()>,
    pub(crate) timers: Objects<Timer, ()>,
    moment: Moment,
}

impl Model for TimePart {
    ghost use Rattle.osal_time.specs.Time.{TimeState};
    ghost use Rattle.std.specs.Coded.{codes};
    ghost use Rattle.osal_object.specs.Code.{objects_code};

    ghost Value = { TimeState };

    ghost coded = { Prim.hlevel (codes, objects_code) };

    ghost view = { λ a. record { timebases = a.timebases; timers = a.timers; moment = a.moment } };

    ghost invariant = { λ a. Unit {0} };
}

/// Whether an identifier is one of a timer.
fn is_timer(id: OsalId) -> bool
    ensures { result ≡ is_timer id }
{
    id.raw() / 65536 == ObjType::Timer.number()
}

impl TimePart {
    /// No timebases and no timers at the start of time, with the memory for as many as the limits say.
    ///
    /// It fails for want of memory alone, and costs the two capacities.
    pub fn open(alloc: Global, limits: &Limits) -> Result<TimePart, OutOfMemory>
        requires { Fits limits.now }
        ensures { IfOk result (λ part. part ≡ time_start limits.now) }
    {
        Ok(TimePart {
            timebases: Objects::new(alloc, ObjType::Timebase, limits.timebases, limits.tasks)?,
            timers: Objects::new(alloc, ObjType::Timer, limits.timers, limits.tasks)?,
            moment: Moment::START,
        })
    }

    /// The moment that it is, in milliseconds since the start.
    pub fn moment(&self) -> Moment
        ensures { result ≡ self.now.moment }
    {
        self.moment
    }

    /// Goes on to a later moment, in milliseconds since the start. In OSAL time goes on by itself.
    ///
    /// Refused is a moment that is not later (`OS_ERROR`). The cost is constant.
    pub fn advance(
        &mut self,
        _alloc: Global,
        task: OsalId,
        now: Moment,
        to: u64,
        room: &mut Room,
    ) -> Result<Ack, OutOfMemory>
        ensures step { IfOk result (λ ack. (replied ack room.new, self.new) ≡ done self.old task now (Advance to)) }
        ensures memory { IsOk result }
    {
        room.clear();
        if to <= self.moment.ms {
            return Ok(Ack::refused(Status::Error));
        }
        self.moment = Moment { ms: to };
        Ok(Ack::success())
    }

    /// `OS_ObjectIdGetById` with a reference count: holds a timer or a timebase, so that it is not removed.
    ///
    /// Refused are, in this order, an identifier that is not active (`OS_ERR_INVALID_ID`), and an object with 1,000,000
    /// holds or more (`OS_ERROR`). The cost is constant.
    pub fn hold(
        &mut self,
        _alloc: Global,
        task: OsalId,
        now: Moment,
        id: OsalId,
        room: &mut Room,
    ) -> Result<Ack, OutOfMemory>
        ensures step { IfOk result (λ ack. (replied ack room.new, self.new) ≡ done self.old task now (held id)) }
        ensures memory { IsOk result }
    {
        room.clear();
        if is_timer(id) {
            Ok(self.timers.hold(id))
        } else {
            Ok(self.timebases.hold(id))
        }
    }

    /// `OS_ObjectIdRelease`: gives a hold of a timer or a timebase back.
    ///
    /// Refused are, in this order, an identifier that is not active (`OS_ERR_INVALID_ID`), and an object that nobody
    /// holds (`OS_ERR_INCORRECT_OBJ_STATE`). The cost is constant.
    pub fn release(
        &mut self,
        _alloc: Global,
        task: OsalId,
        now: Moment,
        id: OsalId,
        room: &mut Room,
    ) -> Result<Ack, OutOfMemory>
        ensures step { IfOk result (λ ack. (replied ack room.new, self.new) ≡ done self.old task now (released id)) }
        ensures memory { IsOk result }
    {
        room.clear();
        if is_timer(id) {
            Ok(self.timers.release(id))
        } else {
            Ok(self.timebases.release(id))
        }
    }

    /// Whether an identifier is one of an active timer or timebase. The cost is constant.
    pub fn active(&self, id: OsalId) -> bool
        ensures { result ≡ is_active self.now id }
    {
        if is_timer(id) {
            self.timers.is_active(id)
        } else {
            self.timebases.is_active(id)
        }
    }

    /// Makes a call that is the part's own. The bytes of the reply are left in the room.
    pub fn apply(
        &mut self,
        alloc: Global,
        task: OsalId,
        now: Moment,
        call: &Call,
        room: &mut Room,
    ) -> Result<Ack, OutOfMemory>
        requires { IsTrue (part_of call.now == 6) }
        ensures step { IfOk result (λ ack. (replied ack room.new, self.new) ≡ time_step self.old task now call.now) }
        ensures memory { IsOk result }
    {
        match call {
            Call::TimebaseCreate { name } => self.timebase_create(alloc, task, now, name, room),
            Call::TimebaseTick { id, usecs } => {
                self.timebase_tick(alloc, task, now, *id, *usecs, room)
            }
            Call::TimebaseFreeRun { id } => self.timebase_free_run(alloc, task, now, *id, room),
            Call::TimebaseDelete { id } => self.timebase_delete(alloc, task, now, *id, room),
            Call::TimebaseFind { name } => self.timebase_find(alloc, task, now, name, room),
            Call::TimerAdd {
                name,
                timebase,
                handler,
            } => self.timer_add(alloc, task, now, name, *timebase, *handler, room),
            Call::TimerSet {
                id,
                start,
                interval,
            } => self.timer_set(alloc, task, now, *id, *start, *interval, room),
            Call::TimerDelete { id } => self.timer_delete(alloc, task, now, *id, room),
            Call::TimerFind { name } => self.timer_find(alloc, task, now, name, room),
            Call::TimerInfo { id } => self.timer_info(alloc, task, now, *id, room),
            Call::Advance { to } => self.advance(alloc, task, now, *to, room),
            Call::Hold { id } => self.hold(alloc, task, now, *id, room),
            Call::Release { id } => self.release(alloc, task, now, *id, room),
            Call::WaitEnd { part } => self.wait_end(alloc, task, now, *part, room),
            Call::WaitAbandon { part } => self.wait_abandon(alloc, task, now, *part, room),
            _ => unreachable!(),
        }
    }
}
