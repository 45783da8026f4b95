//! How timers are added to a timebase, set and removed.
ghost use Rattle.std.specs.Prelude.{◌≡◌, IsOk, IfOk};
ghost use Rattle.osal_base.specs.Reply.{replied};
ghost use Rattle.osal_time.specs.Time.{done};
ghost use Rattle.osal_time.specs.Timers.{timer_add, timer_set, timer_delete, timer_find, timer_info, setting_number};

use crate::{Setting, TimePart, Timer};
use osal_base::{Ack, Answer, Bytes, Moment, Name, OsalId, OutOfMemory, Room, Status};
use osal_call::TIMER_LIMIT;
use osal_idtable::{status_of_name, status_of_reserve};
use std::alloc::Global;

impl TimePart {
    /// `OS_TimerAdd`: makes a timer on a timebase, behind those that it has, and gives its identifier.
    ///
    /// The timer is not set. `handler` is the number that its firings tell.
    ///
    /// Refused are, in this order, the faults of a name as at `timebase_create`, a timebase that is not active
    /// (`OS_ERR_INVALID_ID`) or that has 64 timers (`OS_ERROR`), a name that a timer has (`OS_ERR_NAME_TAKEN`), and an
    /// add where no slot is free (`OS_ERR_NO_FREE_IDS`). The search for the name and for a free slot costs at most the
    /// capacity each, twice.
    pub fn timer_add(
        &mut self,
        _alloc: Global,
        task: OsalId,
        now: Moment,
        name: &Bytes,
        timebase: OsalId,
        handler: u32,
        room: &mut Room,
    ) -> Result<Ack, OutOfMemory>
        ensures step { IfOk result (λ ack. (replied ack room.new, self.new)
            ≡ done self.old task now (timer_add self.old name.now.bytes timebase handler)) }
        ensures memory { IsOk result }
    {
        room.clear();
        let name = match Name::new(name.as_slice()) {
            Ok(name) => name,
            Err(fault) => return Ok(Ack::refused(status_of_name(fault))),
        };
        let full = match self.timebases.lookup(timebase) {
            Ok(found) => found.timers().len() >= TIMER_LIMIT,
            Err(_) => return Ok(Ack::refused(Status::ErrInvalidId)),
        };
        if full {
            return Ok(Ack::refused(Status::Error));
        }
        let timer = Timer {
            timebase,
            handler,
            setting: None,
        };
        let id = match self.timers.peek(&name) {
            Ok(id) => id,
            Err(fault) => return Ok(Ack::refused(status_of_reserve(fault))),
        };
        self.timebases.object_mut(timebase).attach(id);
        Ok(self.timers.create(name, timer))
    }

    /// `OS_TimerSet`: sets a timer anew, from the sum that its timebase has.
    ///
    /// `start` microseconds later it expires, and then again after each `interval`, in microseconds too; a start of 0
    /// stands for the interval, an interval of 0 for one expiry alone.
    ///
    /// Refused are, in this order, a start and an interval that are both 0 (`OS_TIMER_ERR_INVALID_ARGS`), and an
    /// identifier that is not active (`OS_ERR_INVALID_ID`). The cost is constant.
    pub fn timer_set(
        &mut self,
        _alloc: Global,
        task: OsalId,
        now: Moment,
        id: OsalId,
        start: u32,
        interval: u32,
        room: &mut Room,
    ) -> Result<Ack, OutOfMemory>
        ensures step { IfOk result (λ ack. (replied ack room.new, self.new)
            ≡ done self.old task now (timer_set self.old id start interval)) }
        ensures memory { IsOk result }
    {
        room.clear();
        if start == 0 && interval == 0 {
            return Ok(Ack::refused(Status::TimerErrInvalidArgs));
        }
        let timer = match self.timers.lookup(id) {
            Ok(timer) => *timer,
            Err(_) => return Ok(Ack::refused(Status::ErrInvalidId)),
        };
        // The timebase is active, as it has this timer; the definition says 0 where it is not.
        let at = match self.timebases.lookup(timer.timebase) {
            Ok(timebase) => timebase.sum(),
            Err(_) => 0,
        };
        let setting = Some(Setting {
            at,
            start,
            interval,
        });
        self.timers.put(id, Timer { setting, ..timer });
        Ok(Ack::success())
    }

    /// `OS_TimerDelete`: removes a timer that nobody holds, and detaches it from its timebase.
    ///
    /// Refused are, in this order, an identifier that is not active (`OS_ERR_INVALID_ID`), and a timer that somebody
    /// holds (`OS_ERR_OBJECT_IN_USE`). It looks at each timer of the timebase.
    pub fn timer_delete(
        &mut self,
        _alloc: Global,
        task: OsalId,
        now: Moment,
        id: OsalId,
        room: &mut Room,
    ) -> Result<Ack, OutOfMemory>
        ensures step { IfOk result (λ ack. (replied ack room.new, self.new)
            ≡ done self.old task now (timer_delete self.old id)) }
        ensures memory { IsOk result }
    {
        room.clear();
        let timebase = match self.timers.lookup(id) {
            Ok(timer) => timer.timebase,
            Err(_) => return Ok(Ack::refused(Status::ErrInvalidId)),
        };
        if self.timers.is_held(id) {
            return Ok(Ack::refused(Status::ErrObjectInUse));
        }
        if self.timebases.is_active(timebase) {
            self.timebases.object_mut(timebase).detach(id);
        }
        Ok(self.timers.delete(id))
    }

    /// `OS_TimerGetIdByName`: gives the identifier of a timer.
    ///
    /// Refused are, in this order, the faults of a name as at `timebase_create`, and a name that no timer has
    /// (`OS_ERR_NAME_NOT_FOUND`).
    ///
    /// It compares as many names as the logarithm of the capacity.
    pub fn timer_find(
        &mut self,
        _alloc: Global,
        task: OsalId,
        now: Moment,
        name: &Bytes,
        room: &mut Room,
    ) -> Result<Ack, OutOfMemory>
        ensures step { IfOk result (λ ack. (replied ack room.new, self.new)
            ≡ done self.old task now (timer_find name.now.bytes)) }
        ensures memory { IsOk result }
    {
        room.clear();
        Ok(self.timers.find(name.as_slice()))
    }

    /// `OS_TimerGetInfo`: gives the timer's last setting as `start * 2^32 + interval`, 0 before one, and its name.
    ///
    /// Both are in microseconds, as they were set. Refused is an identifier that is not active (`OS_ERR_INVALID_ID`).
    /// The cost is constant.
    pub fn timer_info(
        &mut self,
        _alloc: Global,
        task: OsalId,
        now: Moment,
        id: OsalId,
        room: &mut Room,
    ) -> Result<Ack, OutOfMemory>
        ensures step { IfOk result (λ ack. (replied ack room.new, self.new)
            ≡ done self.old task now (timer_info id)) }
        ensures memory { IsOk result }
    {
        room.clear();
        let number = match self.timers.lookup(id) {
            Ok(timer) => setting_number(timer.setting),
            Err(_) => return Ok(Ack::refused(Status::ErrInvalidId)),
        };
        Ok(self.timers.info(id, number, room))
    }
}

// The start and the interval of a setting as one number, 0 where there is none.
fn setting_number(setting: Option<Setting>) -> u64
    ensures { result ≡ setting_number setting }
{
    match setting {
        None => 0,
        Some(setting) => u64::from(setting.start) * 4_294_967_296 + u64::from(setting.interval),
    }
}
