//! How timebases are made and removed, and how they run.
ghost use Rattle.std.specs.Prelude.{◌≡◌, ◌<◌, ◌≤◌, ◌+◌, ◌-◌, ◌^◌, ◌++◌, [], length, IsOk, IfOk};
ghost use Rattle.osal_base.specs.Reply.{replied};
ghost use Rattle.osal_time.specs.Timebase.{sum_limit};
ghost use Rattle.osal_call.specs.Firing.{timer_limit};
ghost use Rattle.osal_idtable.specs.Table.{active_at};
ghost use Rattle.osal_time.specs.Time.{done};
ghost use Rattle.osal_time.specs.Ticks.{firing_of, firings, firings_reply, timebase_create, timebase_tick, timebase_free_run, timebase_delete, timebase_find};
ghost use Rattle.osal_call.specs.Firing.{firing_bytes, bytes_of};

use crate::timebase::SUM_LIMIT;
use crate::{TimePart, Timebase, Timer};
use osal_base::{Ack, Bytes, Moment, Name, OsalId, OutOfMemory, Room, Status};
use osal_call::append_firing;
use osal_idtable::status_of_name;
use osal_object::Objects;
use std::alloc::Global;

impl TimePart {
    /// `OS_TimeBaseCreate`: makes a timebase whose sum is 0 and that has no timers, and gives its identifier.
    ///
    /// Refused are, in this order, a name of no bytes (`OS_ERR_INVALID_ARGUMENT`), of more than 19 bytes
    /// (`OS_ERR_NAME_TOO_LONG`) or with a zero byte (`OS_ERR_INVALID_ARGUMENT`), one that a timebase has
    /// (`OS_ERR_NAME_TAKEN`), and a create where no slot is free (`OS_ERR_NO_FREE_IDS`). The search for the name and
    /// for a free slot costs at most the capacity each.
    pub fn timebase_create(
        &mut self,
        _alloc: Global,
        task: OsalId,
        now: Moment,
        name: &Bytes,
        room: &mut Room,
    ) -> Result<Ack, OutOfMemory>
        ensures step { IfOk result (λ ack. (replied ack room.new, self.new)
            ≡ done self.old task now (timebase_create name.now.bytes)) }
        ensures memory { IsOk result }
    {
        room.clear();
        let name = match Name::new(name.as_slice()) {
            Ok(name) => name,
            Err(fault) => return Ok(Ack::refused(status_of_name(fault))),
        };
        Ok(self.timebases.create(name, Timebase::new()))
    }

    /// The external tick of a timebase: its sum rises by some microseconds, and its timers fire.
    ///
    /// In OSAL it is a return of the `external_sync` function that `OS_TimeBaseCreate` is given. A timer with one expiry
    /// or more above the old sum and not above the new one fires once, in the order of attachment. The number is how
    /// many fired. The bytes are, for each, its identifier, how many expiries it had beside the one that it fires for,
    /// and the number of its handler, in four bytes each, most significant first.
    ///
    /// Refused are, in this order, a tick of 0 microseconds (`OS_TIMER_ERR_INVALID_ARGS`), an identifier that is not
    /// active (`OS_ERR_INVALID_ID`), and a tick by which the sum would pass 2^62 (`OS_ERROR`). It looks at each timer
    /// of the timebase once, however many expiries lie there.
    pub fn timebase_tick(
        &mut self,
        _alloc: Global,
        task: OsalId,
        now: Moment,
        id: OsalId,
        usecs: u32,
        room: &mut Room,
    ) -> Result<Ack, OutOfMemory>
        ensures step { IfOk result (λ ack. (replied ack room.new, self.new)
            ≡ done self.old task now (timebase_tick self.old id usecs)) }
        ensures memory { IsOk result }
    {
        room.clear();
        if usecs == 0 {
            return Ok(Ack::refused(Status::TimerErrInvalidArgs));
        }
        let Ok(timebase) = self.timebases.lookup(id) else {
            return Ok(Ack::refused(Status::ErrInvalidId));
        };
        let from = timebase.sum();
        let to = from + u64::from(usecs);
        if to > SUM_LIMIT {
            return Ok(Ack::refused(Status::Error));
        }
        let ack = fire(&self.timers, timebase.timers(), from, to, room);
        self.timebases.object_mut(id).run(usecs);
        Ok(ack)
    }

    /// `OS_TimeBaseGetFreeRun`: gives the sum in microseconds, modulo 2^32.
    ///
    /// Refused is an identifier that is not active (`OS_ERR_INVALID_ID`). The cost is constant.
    pub fn timebase_free_run(
        &mut self,
        _alloc: Global,
        task: OsalId,
        now: Moment,
        id: OsalId,
        room: &mut Room,
    ) -> Result<Ack, OutOfMemory>
        ensures step { IfOk result (λ ack. (replied ack room.new, self.new)
            ≡ done self.old task now (timebase_free_run id)) }
        ensures memory { IsOk result }
    {
        room.clear();
        match self.timebases.lookup(id) {
            Ok(timebase) => Ok(Ack::gives(timebase.sum() % 4_294_967_296)),
            Err(_) => Ok(Ack::refused(Status::ErrInvalidId)),
        }
    }

    /// `OS_TimeBaseDelete`: removes a timebase that nobody holds and to which no timer is attached.
    ///
    /// Refused are, in this order, an identifier that is not active (`OS_ERR_INVALID_ID`), and every other timebase
    /// (`OS_ERR_OBJECT_IN_USE`). The cost is constant.
    pub fn timebase_delete(
        &mut self,
        _alloc: Global,
        task: OsalId,
        now: Moment,
        id: OsalId,
        room: &mut Room,
    ) -> Result<Ack, OutOfMemory>
        ensures step { IfOk result (λ ack. (replied ack room.new, self.new)
            ≡ done self.old task now (timebase_delete id)) }
        ensures memory { IsOk result }
    {
        room.clear();
        let attached = match self.timebases.lookup(id) {
            Ok(timebase) => !timebase.timers().is_empty(),
            Err(_) => false,
        };
        if attached {
            return Ok(Ack::refused(Status::ErrObjectInUse));
        }
        Ok(self.timebases.delete(id))
    }

    /// `OS_TimeBaseGetIdByName`: gives the identifier of a timebase.
    ///
    /// Refused are, in this order, the faults of a name as at `timebase_create`, and a name that no timebase has
    /// (`OS_ERR_NAME_NOT_FOUND`).
    ///
    /// It compares as many names as the logarithm of the capacity.
    pub fn timebase_find(
        &mut self,
        _alloc: Global,
        task: OsalId,
        now: Moment,
        name: &Bytes,
        room: &mut Room,
    ) -> Result<Ack, OutOfMemory>
        ensures step { IfOk result (λ ack. (replied ack room.new, self.new)
            ≡ done self.old task now (timebase_find name.now.bytes)) }
        ensures memory { IsOk result }
    {
        room.clear();
        Ok(self.timebases.find(name.as_slice()))
    }
}

// How many of some timers fire as their timebase runs, and which, in the room.
fn fire(timers: &Objects<Timer, ()>, attached: &[u32], from: u64, to: u64, room: &mut Room) -> Ack
    requires clear { room.old ≡ [] }
    requires few { length attached.now ≤ timer_limit }
    requires from { from ≤ sum_limit }
    requires to { to ≤ sum_limit }
    requires near { to - from < 2 ^ 32 }
    ensures { replied result room.new ≡ firings_reply (firings timers.now.table from to attached.now) }
{
    let mut fired = 0;
    for raw in attached {
        fired += fire_timer(timers, OsalId::of_raw(*raw), from, to, room);
    }
    Ack::gives(fired)
}

// How often a timer fires as its timebase runs, once or not at all, behind the bytes that are there.
fn fire_timer(timers: &Objects<Timer, ()>, id: OsalId, from: u64, to: u64, room: &mut Room) -> u64
    requires room { length room.old + 12 ≤ 1024 }
    requires from { from ≤ sum_limit }
    requires to { to ≤ sum_limit }
    requires near { to - from < 2 ^ 32 }
    ensures count { result ≡ length (firing_of from to id (active_at timers.now.table id)) }
    ensures bytes { room.new ≡ room.old ++ bytes_of (firing_of from to id (active_at timers.now.table id)) }
    ensures once { result ≤ 1 }
    ensures small { length room.new ≤ length room.old + 12 }
{
    let Ok(timer) = timers.lookup(id) else {
        return 0;
    };
    let expiries = timer.expiries_between(from, to);
    if expiries == 0 {
        return 0;
    }
    append_firing(room, id, (expiries - 1) as u32, timer.handler);
    1
}
