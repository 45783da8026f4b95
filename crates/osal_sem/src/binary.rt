//! The binary semaphore part.
ghost use Rattle.std.specs.Prelude.{◌≡◌, IsOk, IfOk, is_some, ◌==◌, IsTrue};
ghost use Rattle.osal_base.specs.Limits.{Fits};
ghost use Rattle.osal_base.specs.Reply.{replied};
ghost use Rattle.osal_idtable.specs.Table.{active_at};
ghost use Rattle.osal_object.specs.Outcomes.{Find, Remove, Hold, Release};
ghost use Rattle.osal_sem.specs.Binary.{no_bin_sems, done, bin_sem_create, bin_sem_take, bin_sem_give, bin_sem_flush, bin_sem_info, bin_sem_step};
ghost use Rattle.osal_call.specs.Call.{part_of};

mod waiting;

use osal_base::{
    Ack, Bytes, Limits, Moment, Name, ObjType, OsalId, OutOfMemory, Room, Status, Timeout,
};
use osal_call::Call;
use osal_idtable::status_of_name;
use osal_object::{Objects, Standing, WaitRecord};
use std::alloc::Global;
use std::marker::Model;

/// A binary semaphore, which is full or empty (`OS_SEM_FULL`, `OS_SEM_EMPTY`).
#[derive(Clone, Copy, Debug, PartialEq, Eq)]
pub struct BinSem {
    pub full: bool,
}

/// The binary semaphores, and the takes that wait.
#[derive(Drop)]
pub struct BinSemPart {
    pub(crate) objects: Objects<BinSem, OsalId>,
}

impl Model for BinSemPart {
    ghost use Rattle.osal_sem.specs.Binary.{BinSemState};
    ghost use Rattle.std.specs.Coded.{codes};
    ghost use Rattle.osal_object.specs.Code.{objects_code};

    ghost Value = { BinSemState };

    ghost coded = { Prim.hlevel (codes, objects_code) };

    ghost view = { λ a. record { objects = a.objects } };

    ghost invariant = { λ a. Unit {0} };
}

impl BinSemPart {
    /// No semaphores, with the memory for as many as the limits say, and for a take of each task.
    pub fn open(alloc: Global, limits: &Limits) -> Result<BinSemPart, OutOfMemory>
        requires { Fits limits.now }
        ensures { IfOk result (λ part. part ≡ no_bin_sems limits.now) }
    {
        let objects = Objects::new(alloc, ObjType::BinSem, limits.bin_sems, limits.tasks)?;
        Ok(BinSemPart { objects })
    }

    /// `OS_BinSemCreate`: makes a semaphore and gives its identifier. A value above 1 counts as 1.
    ///
    /// It takes no memory; the search for the name and for a free slot costs at most the capacity each.
    pub fn bin_sem_create(
        &mut self,
        _alloc: Global,
        task: OsalId,
        now: Moment,
        name: &Bytes,
        value: u32,
        room: &mut Room,
    ) -> Result<Ack, OutOfMemory>
        ensures step { IfOk result (λ ack. (replied ack room.new, self.new)
            ≡ done self.old task now (bin_sem_create name.now.bytes value)) }
        ensures memory { IsOk result }
    {
        room.clear();
        let name = match Name::new(name.as_slice()) {
            Ok(name) => name,
            Err(fault) => return Ok(Ack::refused(status_of_name(fault))),
        };
        Ok(self.objects.create(name, BinSem { full: 0 < value }))
    }

    /// `OS_BinSemTake` and `OS_BinSemTimedWait`: empties a semaphore that is full. It takes no memory.
    ///
    /// At an empty one the task waits, and `wait_end` answers. Meanwhile the semaphore is held.
    pub fn bin_sem_take(
        &mut self,
        _alloc: Global,
        task: OsalId,
        now: Moment,
        id: OsalId,
        wait: Timeout,
        room: &mut Room,
    ) -> Result<Ack, OutOfMemory>
        ensures step { IfOk result (λ ack. (replied ack room.new, self.new)
            ≡ done self.old task now (bin_sem_take id wait)) }
        ensures memory { IsOk result }
    {
        room.clear();
        let sem = match self.objects.lookup(id) {
            Ok(sem) => *sem,
            Err(_) => return Ok(Ack::refused(Status::ErrInvalidId)),
        };
        if sem.full {
            self.objects.put(id, BinSem { full: false });
            return Ok(Ack::success());
        }
        if wait.is_check() {
            return Ok(Ack::refused(Status::SemTimeout));
        }
        let record = WaitRecord::new(task, id, Standing::new(Some(id)), wait, now);
        Ok(self.objects.begin(record))
    }

    /// `OS_BinSemGive`: fills a semaphore. It takes no memory.
    pub fn bin_sem_give(
        &mut self,
        _alloc: Global,
        task: OsalId,
        now: Moment,
        id: OsalId,
        room: &mut Room,
    ) -> Result<Ack, OutOfMemory>
        ensures step { IfOk result (λ ack. (replied ack room.new, self.new) ≡ done self.old task now (bin_sem_give id)) }
        ensures memory { IsOk result }
    {
        room.clear();
        if self.objects.lookup(id).is_err() {
            return Ok(Ack::refused(Status::ErrInvalidId));
        }
        self.objects.put(id, BinSem { full: true });
        Ok(Ack::success())
    }

    /// `OS_BinSemFlush`: releases each take that waits; the value stays. It takes no memory.
    pub fn bin_sem_flush(
        &mut self,
        _alloc: Global,
        task: OsalId,
        now: Moment,
        id: OsalId,
        room: &mut Room,
    ) -> Result<Ack, OutOfMemory>
        ensures step { IfOk result (λ ack. (replied ack room.new, self.new) ≡ done self.old task now (bin_sem_flush id)) }
        ensures memory { IsOk result }
    {
        room.clear();
        if !self.objects.is_active(id) {
            return Ok(Ack::refused(Status::ErrInvalidId));
        }
        self.objects.release_on(id);
        Ok(Ack::success())
    }

    /// `OS_BinSemDelete`: removes a semaphore that nobody holds. It takes no memory.
    pub fn bin_sem_delete(
        &mut self,
        _alloc: Global,
        task: OsalId,
        now: Moment,
        id: OsalId,
        room: &mut Room,
    ) -> Result<Ack, OutOfMemory>
        ensures step { IfOk result (λ ack. (replied ack room.new, self.new) ≡ done self.old task now (Remove id)) }
        ensures memory { IsOk result }
    {
        room.clear();
        Ok(self.objects.delete(id))
    }

    /// `OS_BinSemGetIdByName`: gives the identifier of a semaphore.
    ///
    /// It compares as many names as the logarithm of the capacity.
    pub fn bin_sem_find(
        &mut self,
        _alloc: Global,
        task: OsalId,
        now: Moment,
        name: &Bytes,
        room: &mut Room,
    ) -> Result<Ack, OutOfMemory>
        ensures step { IfOk result (λ ack. (replied ack room.new, self.new) ≡ done self.old task now (Find name.now.bytes)) }
        ensures memory { IsOk result }
    {
        room.clear();
        Ok(self.objects.find(name.as_slice()))
    }

    /// `OS_BinSemGetInfo`: gives the value of a semaphore, 1 or 0, and its name.
    pub fn bin_sem_info(
        &mut self,
        _alloc: Global,
        task: OsalId,
        now: Moment,
        id: OsalId,
        room: &mut Room,
    ) -> Result<Ack, OutOfMemory>
        ensures step { IfOk result (λ ack. (replied ack room.new, self.new) ≡ done self.old task now (bin_sem_info id)) }
        ensures memory { IsOk result }
    {
        room.clear();
        let full = match self.objects.lookup(id) {
            Ok(sem) => sem.full,
            Err(_) => return Ok(Ack::refused(Status::ErrInvalidId)),
        };
        Ok(self.objects.info(id, u64::from(full), room))
    }

    /// Holds a semaphore, so that it is not removed.
    pub fn hold(
        &mut self,
        _alloc: Global,
        task: OsalId,
        now: Moment,
        id: OsalId,
        room: &mut Room,
    ) -> Result<Ack, OutOfMemory>
        ensures step { IfOk result (λ ack. (replied ack room.new, self.new) ≡ done self.old task now (Hold id)) }
        ensures memory { IsOk result }
    {
        room.clear();
        Ok(self.objects.hold(id))
    }

    /// Gives a hold of a semaphore back.
    pub fn release(
        &mut self,
        _alloc: Global,
        task: OsalId,
        now: Moment,
        id: OsalId,
        room: &mut Room,
    ) -> Result<Ack, OutOfMemory>
        ensures step { IfOk result (λ ack. (replied ack room.new, self.new) ≡ done self.old task now (Release id)) }
        ensures memory { IsOk result }
    {
        room.clear();
        Ok(self.objects.release(id))
    }

    /// Whether an identifier is one of an active semaphore.
    pub fn active(&self, id: OsalId) -> bool
        ensures { result ≡ is_some (active_at self.now.objects.table id) }
    {
        self.objects.is_active(id)
    }

    /// Makes a call that is the part's own. The bytes of the reply are left in the room.
    pub fn apply(
        &mut self,
        alloc: Global,
        task: OsalId,
        now: Moment,
        call: &Call,
        room: &mut Room,
    ) -> Result<Ack, OutOfMemory>
        requires { IsTrue (part_of call.now == 3) }
        ensures step { IfOk result (λ ack. (replied ack room.new, self.new) ≡ bin_sem_step self.old task now call.now) }
        ensures memory { IsOk result }
    {
        match call {
            Call::BinSemCreate { name, value } => {
                self.bin_sem_create(alloc, task, now, name, *value, room)
            }
            Call::BinSemGive { id } => self.bin_sem_give(alloc, task, now, *id, room),
            Call::BinSemFlush { id } => self.bin_sem_flush(alloc, task, now, *id, room),
            Call::BinSemTake { id, wait } => {
                self.bin_sem_take(alloc, task, now, *id, *wait, room)
            }
            Call::BinSemDelete { id } => self.bin_sem_delete(alloc, task, now, *id, room),
            Call::BinSemFind { name } => self.bin_sem_find(alloc, task, now, name, room),
            Call::BinSemInfo { id } => self.bin_sem_info(alloc, task, now, *id, room),
            Call::Hold { id } => self.hold(alloc, task, now, *id, room),
            Call::Release { id } => self.release(alloc, task, now, *id, room),
            Call::WaitEnd { part } => self.wait_end(alloc, task, now, *part, room),
            Call::WaitAbandon { part } => self.wait_abandon(alloc, task, now, *part, room),
            _ => unreachable!(),
        }
    }
}
