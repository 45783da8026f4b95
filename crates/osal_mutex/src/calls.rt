//! The calls of mutexes.
ghost use Rattle.std.specs.Prelude.{◌≡◌, IsOk, IfOk, ◌==◌, IsTrue};
ghost use Rattle.osal_base.specs.Reply.{replied};
ghost use Rattle.osal_object.specs.Outcomes.{Find};
ghost use Rattle.osal_mutex.specs.Mutexes.{done, mut_sem_create, mut_sem_take, mut_sem_give, mut_sem_delete, mut_sem_info, mutex_step};
ghost use Rattle.osal_call.specs.Call.{part_of};

use crate::{Lock, Mutex, MutexPart};
use osal_base::{Ack, Bytes, Moment, Name, OsalId, OutOfMemory, Room, Status, Timeout};
use osal_call::Call;
use osal_idtable::status_of_name;
use osal_object::{Standing, WaitRecord};
use std::alloc::Global;

/// How often the owner of a mutex may have taken it.
const NESTING_LIMIT: u32 = 32_767;

impl MutexPart {
    /// `OS_MutSemCreate`: makes a mutex that is free, and gives its identifier.
    ///
    /// It takes no memory; the search for the name and for a free slot costs at most the capacity each.
    pub fn mut_sem_create(
        &mut self,
        _alloc: Global,
        task: OsalId,
        now: Moment,
        name: &Bytes,
        room: &mut Room,
    ) -> Result<Ack, OutOfMemory>
        ensures step { IfOk result (λ ack. (replied ack room.new, self.new)
            ≡ done self.old task now (mut_sem_create task name.now.bytes)) }
        ensures memory { IsOk result }
    {
        room.clear();
        let name = match Name::new(name.as_slice()) {
            Ok(name) => name,
            Err(fault) => return Ok(Ack::refused(status_of_name(fault))),
        };
        let made = Mutex {
            creator: task,
            lock: Lock::Free,
        };
        Ok(self.objects.create(name, made))
    }

    /// `OS_MutSemTake`: the task owns a mutex that was free, or owns it once more. It takes no memory.
    ///
    /// Where another task owns it the task waits with no deadline, and `wait_end` answers. Meanwhile the mutex
    /// is held.
    pub fn mut_sem_take(
        &mut self,
        _alloc: Global,
        task: OsalId,
        now: Moment,
        id: OsalId,
        room: &mut Room,
    ) -> Result<Ack, OutOfMemory>
        ensures step { IfOk result (λ ack. (replied ack room.new, self.new)
            ≡ done self.old task now (mut_sem_take task id)) }
        ensures memory { IsOk result }
    {
        room.clear();
        let mutex = match self.objects.lookup(id) {
            Ok(mutex) => *mutex,
            Err(_) => return Ok(Ack::refused(Status::ErrInvalidId)),
        };
        let depth = match &mutex.lock {
            Lock::Free => 0,
            Lock::Owned { task: owner, depth } if *owner == task => *depth,
            Lock::Owned { .. } => {
                let wait = WaitRecord::new(task, id, Standing::new(Some(id)), Timeout::Pend, now);
                return Ok(self.objects.begin(wait));
            }
        };
        if depth >= NESTING_LIMIT {
            return Ok(Ack::refused(Status::SemFailure));
        }
        let lock = Lock::Owned {
            task,
            depth: depth + 1,
        };
        self.objects.put(id, Mutex { lock, ..mutex });
        Ok(Ack::success())
    }

    /// `OS_MutSemGive`: undoes one take by the owner; with the last one the mutex is free. It takes no memory.
    pub fn mut_sem_give(
        &mut self,
        _alloc: Global,
        task: OsalId,
        now: Moment,
        id: OsalId,
        room: &mut Room,
    ) -> Result<Ack, OutOfMemory>
        ensures step { IfOk result (λ ack. (replied ack room.new, self.new) ≡ done self.old task now (mut_sem_give task id)) }
        ensures memory { IsOk result }
    {
        room.clear();
        let mutex = match self.objects.lookup(id) {
            Ok(mutex) => *mutex,
            Err(_) => return Ok(Ack::refused(Status::ErrInvalidId)),
        };
        let depth = match &mutex.lock {
            Lock::Owned { task: owner, depth } if *owner == task => *depth,
            _ => return Ok(Ack::refused(Status::SemFailure)),
        };
        let lock = Lock::given(task, depth);
        self.objects.put(id, Mutex { lock, ..mutex });
        Ok(Ack::success())
    }

    /// `OS_MutSemDelete`: removes a mutex that nobody holds and no task owns. It takes no memory.
    pub fn mut_sem_delete(
        &mut self,
        _alloc: Global,
        task: OsalId,
        now: Moment,
        id: OsalId,
        room: &mut Room,
    ) -> Result<Ack, OutOfMemory>
        ensures step { IfOk result (λ ack. (replied ack room.new, self.new) ≡ done self.old task now (mut_sem_delete id)) }
        ensures memory { IsOk result }
    {
        room.clear();
        let owned = match self.objects.lookup(id) {
            Ok(mutex) => mutex.lock.is_owned(),
            Err(_) => return Ok(Ack::refused(Status::ErrInvalidId)),
        };
        if owned {
            return Ok(Ack::refused(Status::ErrObjectInUse));
        }
        Ok(self.objects.delete(id))
    }

    /// `OS_MutSemGetIdByName`: gives the identifier of a mutex.
    ///
    /// It compares as many names as the logarithm of the capacity.
    pub fn mut_sem_find(
        &mut self,
        _alloc: Global,
        task: OsalId,
        now: Moment,
        name: &Bytes,
        room: &mut Room,
    ) -> Result<Ack, OutOfMemory>
        ensures step { IfOk result (λ ack. (replied ack room.new, self.new)
            ≡ done self.old task now (Find name.now.bytes)) }
        ensures memory { IsOk result }
    {
        room.clear();
        Ok(self.objects.find(name.as_slice()))
    }

    /// `OS_MutSemGetInfo`: gives the task that made a mutex, and the mutex's name.
    pub fn mut_sem_info(
        &mut self,
        _alloc: Global,
        task: OsalId,
        now: Moment,
        id: OsalId,
        room: &mut Room,
    ) -> Result<Ack, OutOfMemory>
        ensures step { IfOk result (λ ack. (replied ack room.new, self.new) ≡ done self.old task now (mut_sem_info id)) }
        ensures memory { IsOk result }
    {
        room.clear();
        let creator = match self.objects.lookup(id) {
            Ok(mutex) => mutex.creator,
            Err(_) => return Ok(Ack::refused(Status::ErrInvalidId)),
        };
        Ok(self.objects.info(id, u64::from(creator.raw()), room))
    }

    /// Makes a call that is the part's own. The bytes of the reply are left in the room.
    pub fn apply(
        &mut self,
        alloc: Global,
        task: OsalId,
        now: Moment,
        call: &Call,
        room: &mut Room,
    ) -> Result<Ack, OutOfMemory>
        requires { IsTrue (part_of call.now == 4) }
        ensures step { IfOk result (λ ack. (replied ack room.new, self.new) ≡ mutex_step self.old task now call.now) }
        ensures memory { IsOk result }
    {
        match call {
            Call::MutSemCreate { name } => self.mut_sem_create(alloc, task, now, name, room),
            Call::MutSemTake { id } => self.mut_sem_take(alloc, task, now, *id, room),
            Call::MutSemGive { id } => self.mut_sem_give(alloc, task, now, *id, room),
            Call::MutSemDelete { id } => self.mut_sem_delete(alloc, task, now, *id, room),
            Call::MutSemFind { name } => self.mut_sem_find(alloc, task, now, name, room),
            Call::MutSemInfo { id } => self.mut_sem_info(alloc, task, now, *id, room),
            Call::Hold { id } => self.hold(alloc, task, now, *id, room),
            Call::Release { id } => self.release(alloc, task, now, *id, room),
            Call::WaitEnd { part } => self.wait_end(alloc, task, now, *part, room),
            Call::WaitAbandon { part } => self.wait_abandon(alloc, task, now, *part, room),
            _ => unreachable!(),
        }
    }
}
