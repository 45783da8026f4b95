//! The counting semaphore part.
ghost use Rattle.std.specs.Prelude.{◌≡◌, IsOk, IfOk, is_some, ◌==◌, IsTrue};
ghost use Rattle.osal_base.specs.Limits.{Fits};
ghost use Rattle.osal_base.specs.Reply.{replied};
ghost use Rattle.osal_idtable.specs.Table.{active_at};
ghost use Rattle.osal_object.specs.Outcomes.{Find, Remove, Hold, Release};
ghost use Rattle.osal_sem.specs.Counting.{no_count_sems, done, count_sem_create, count_sem_take, count_sem_give, count_sem_info, count_sem_step};
ghost use Rattle.osal_call.specs.Call.{part_of};

mod waiting;

use osal_base::{
    Ack, Bytes, Limits, Moment, Name, ObjType, OsalId, OutOfMemory, Room, Status, Timeout,
};
use osal_call::Call;
use osal_idtable::status_of_name;
use osal_object::{Objects, Standing, WaitRecord};
use std::alloc::Global;
use std::marker::Model;

/// The greatest value of a counting semaphore.
const VALUE_LIMIT: u32 = 32_767;

/// A counting semaphore: how many takes succeed before one has to wait.
#[derive(Clone, Copy, Debug, PartialEq, Eq)]
pub struct CountSem {
    /// 0 to 32,767.
    pub value: u32,
}

/// The counting semaphores, and the takes that wait.
#[derive(Drop)]
pub struct CountSemPart {
    pub(crate) objects: Objects<CountSem, OsalId>,
}

impl Model for CountSemPart {
    ghost use Rattle.osal_sem.specs.Counting.{CountSemState};
    ghost use Rattle.std.specs.Coded.{codes};
    ghost use Rattle.osal_object.specs.Code.{objects_code};

    ghost Value = { CountSemState };

    ghost coded = { Prim.hlevel (codes, objects_code) };

    ghost view = { λ a. record { objects = a.objects } };

    ghost invariant = { λ a. Unit {0} };
}

impl CountSemPart {
    /// No semaphores, with the memory for as many as the limits say, and for a take of each task.
    pub fn open(alloc: Global, limits: &Limits) -> Result<CountSemPart, OutOfMemory>
        requires { Fits limits.now }
        ensures { IfOk result (λ part. part ≡ no_count_sems limits.now) }
    {
        let objects = Objects::new(alloc, ObjType::CountSem, limits.count_sems, limits.tasks)?;
        Ok(CountSemPart { objects })
    }

    /// `OS_CountSemCreate`: makes a semaphore with that value, 32,767 at most, and gives its identifier.
    ///
    /// It takes no memory; the search for the name and for a free slot costs at most the capacity each.
    pub fn count_sem_create(
        &mut self,
        _alloc: Global,
        task: OsalId,
        now: Moment,
        name: &Bytes,
        value: u32,
        room: &mut Room,
    ) -> Result<Ack, OutOfMemory>
        ensures step { IfOk result (λ ack. (replied ack room.new, self.new)
            ≡ done self.old task now (count_sem_create name.now.bytes value)) }
        ensures memory { IsOk result }
    {
        room.clear();
        let name = match Name::new(name.as_slice()) {
            Ok(name) => name,
            Err(fault) => return Ok(Ack::refused(status_of_name(fault))),
        };
        if value > VALUE_LIMIT {
            return Ok(Ack::refused(Status::InvalidSemValue));
        }
        Ok(self.objects.create(name, CountSem { value }))
    }

    /// `OS_CountSemTake` and `OS_CountSemTimedWait`: lowers a value above 0 by one. It takes no memory.
    ///
    /// At the value 0 the task waits, and `wait_end` answers. Meanwhile the semaphore is held.
    pub fn count_sem_take(
        &mut self,
        _alloc: Global,
        task: OsalId,
        now: Moment,
        id: OsalId,
        wait: Timeout,
        room: &mut Room,
    ) -> Result<Ack, OutOfMemory>
        ensures step { IfOk result (λ ack. (replied ack room.new, self.new)
            ≡ done self.old task now (count_sem_take id wait)) }
        ensures memory { IsOk result }
    {
        room.clear();
        let value = match self.objects.lookup(id) {
            Ok(sem) => sem.value,
            Err(_) => return Ok(Ack::refused(Status::ErrInvalidId)),
        };
        if value > 0 {
            self.objects.put(id, CountSem { value: value - 1 });
            return Ok(Ack::success());
        }
        if wait.is_check() {
            return Ok(Ack::refused(Status::SemTimeout));
        }
        let record = WaitRecord::new(task, id, Standing::new(Some(id)), wait, now);
        Ok(self.objects.begin(record))
    }

    /// `OS_CountSemGive`: raises the value by one, or refuses at 32,767. It takes no memory.
    pub fn count_sem_give(
        &mut self,
        _alloc: Global,
        task: OsalId,
        now: Moment,
        id: OsalId,
        room: &mut Room,
    ) -> Result<Ack, OutOfMemory>
        ensures step { IfOk result (λ ack. (replied ack room.new, self.new) ≡ done self.old task now (count_sem_give id)) }
        ensures memory { IsOk result }
    {
        room.clear();
        let value = match self.objects.lookup(id) {
            Ok(sem) => sem.value,
            Err(_) => return Ok(Ack::refused(Status::ErrInvalidId)),
        };
        if value >= VALUE_LIMIT {
            return Ok(Ack::refused(Status::SemFailure));
        }
        self.objects.put(id, CountSem { value: value + 1 });
        Ok(Ack::success())
    }

    /// `OS_CountSemDelete`: removes a semaphore that nobody holds. It takes no memory.
    pub fn count_sem_delete(
        &mut self,
        _alloc: Global,
        task: OsalId,
        now: Moment,
        id: OsalId,
        room: &mut Room,
    ) -> Result<Ack, OutOfMemory>
        ensures step { IfOk result (λ ack. (replied ack room.new, self.new) ≡ done self.old task now (Remove id)) }
        ensures memory { IsOk result }
    {
        room.clear();
        Ok(self.objects.delete(id))
    }

    /// `OS_CountSemGetIdByName`: gives the identifier of a semaphore.
    ///
    /// It compares as many names as the logarithm of the capacity.
    pub fn count_sem_find(
        &mut self,
        _alloc: Global,
        task: OsalId,
        now: Moment,
        name: &Bytes,
        room: &mut Room,
    ) -> Result<Ack, OutOfMemory>
        ensures step { IfOk result (λ ack. (replied ack room.new, self.new)
            ≡ done self.old task now (Find name.now.bytes)) }
        ensures memory { IsOk result }
    {
        room.clear();
        Ok(self.objects.find(name.as_slice()))
    }

    /// `OS_CountSemGetInfo`: gives the value of a semaphore and its name.
    pub fn count_sem_info(
        &mut self,
        _alloc: Global,
        task: OsalId,
        now: Moment,
        id: OsalId,
        room: &mut Room,
    ) -> Result<Ack, OutOfMemory>
        ensures step { IfOk result (λ ack. (replied ack room.new, self.new) ≡ done self.old task now (count_sem_info id)) }
        ensures memory { IsOk result }
    {
        room.clear();
        let value = match self.objects.lookup(id) {
            Ok(sem) => sem.value,
            Err(_) => return Ok(Ack::refused(Status::ErrInvalidId)),
        };
        Ok(self.objects.info(id, u64::from(value), room))
    }

    /// Holds a semaphore, so that it is not removed.
    pub fn hold(
        &mut self,
        _alloc: Global,
        task: OsalId,
        now: Moment,
        id: OsalId,
        room: &mut Room,
    ) -> Result<Ack, OutOfMemory>
        ensures step { IfOk result (λ ack. (replied ack room.new, self.new) ≡ done self.old task now (Hold id)) }
        ensures memory { IsOk result }
    {
        room.clear();
        Ok(self.objects.hold(id))
    }

    /// Gives a hold of a semaphore back.
    pub fn release(
        &mut self,
        _alloc: Global,
        task: OsalId,
        now: Moment,
        id: OsalId,
        room: &mut Room,
    ) -> Result<Ack, OutOfMemory>
        ensures step { IfOk result (λ ack. (replied ack room.new, self.new) ≡ done self.old task now (Release id)) }
        ensures memory { IsOk result }
    {
        room.clear();
        Ok(self.objects.release(id))
    }

    /// Whether an identifier is one of an active semaphore.
    pub fn active(&self, id: OsalId) -> bool
        ensures { result ≡ is_some (active_at self.now.objects.table id) }
    {
        self.objects.is_active(id)
    }

    /// Makes a call that is the part's own. The bytes of the reply are left in the room.
    pub fn apply(
        &mut self,
        alloc: Global,
        task: OsalId,
        now: Moment,
        call: &Call,
        room: &mut Room,
    ) -> Result<Ack, OutOfMemory>
        requires { IsTrue (part_of call.now == 2) }
        ensures step { IfOk result (λ ack. (replied ack room.new, self.new) ≡ count_sem_step self.old task now call.now) }
        ensures memory { IsOk result }
    {
        match call {
            Call::CountSemCreate { name, value } => self.count_sem_create(
                alloc, task, now, name, *value, room,
            ),
            Call::CountSemGive { id } => self.count_sem_give(alloc, task, now, *id, room),
            Call::CountSemTake { id, wait } => self.count_sem_take(
                alloc, task, now, *id, *wait, room,
            ),
            Call::CountSemDelete { id } => self.count_sem_delete(alloc, task, now, *id, room),
            Call::CountSemFind { name } => self.count_sem_find(alloc, task, now, name, room),
            Call::CountSemInfo { id } => self.count_sem_info(alloc, task, now, *id, room),
            Call::Hold { id } => self.hold(alloc, task, now, *id, room),
            Call::Release { id } => self.release(alloc, task, now, *id, room),
            Call::WaitEnd { part } => self.wait_end(alloc, task, now, *part, room),
            Call::WaitAbandon { part } => self.wait_abandon(alloc, task, now, *part, room),
            _ => unreachable!(),
        }
    }
}
