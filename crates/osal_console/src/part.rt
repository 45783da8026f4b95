//! The console part.
ghost use Rattle.std.specs.Prelude.{◌≡◌, ◌==◌, codes, IsOk, IfOk, IsTrue};
ghost use Rattle.osal_base.specs.Limits.{Fits};
ghost use Rattle.osal_base.specs.Reply.{replied};
ghost use Rattle.osal_call.specs.Call.{part_of};
ghost use Rattle.osal_console.specs.Console as of_console;
ghost use Rattle.osal_console.specs.Console.{console_step, empty_console};

use osal_base::{Ack, Limits, Moment, Name, ObjType, OsalId, OutOfMemory, Room, Status};
use osal_call::Call;
use osal_object::Objects;
use osal_ring::Ring;
use std::alloc::Global;
use std::marker::Model;

/// The most bytes that are pending (`OS_PRINTF_CONSOLE_BUFFER` in this profile).
const PENDING_LIMIT: u32 = 4096;

/// The console: the bytes that tasks write wait in it until they are drained.
///
/// It stands under the name `console` from the start and is never removed. No call of this part waits, none but `open`
/// takes memory, and one that is refused changes nothing.
#[derive(Drop)]
pub struct ConsolePart {
    pub(crate) objects: Objects<(), ()>,
    pub(crate) enabled: bool,
    pub(crate) ring: Ring,
}

impl Model for ConsolePart {
    ghost use Rattle.std.specs.Prelude.{◌≡◌};
    ghost use Rattle.osal_console.specs.Console.{ConsoleState, pending_limit};
    ghost use Rattle.std.specs.Coded.{codes};
    ghost use Rattle.osal_object.specs.Code.{objects_code};

    ghost Value = { ConsoleState };

    ghost coded = { Prim.hlevel (codes, objects_code) };

    ghost view = { λ a. record { objects = a.objects; enabled = a.enabled; pending = a.ring.bytes } };

    ghost invariant = { λ a. a.ring.capacity ≡ pending_limit };
}

/// The name of the console.
fn console_name() -> Name
    ensures { result ≡ codes "console" }
{
    Name::new(b"console").unwrap()
}

impl ConsolePart {
    /// The console without pending bytes, which takes bytes, with the memory for all that may be pending.
    ///
    /// It fails for want of memory alone.
    pub fn open(alloc: Global, limits: &Limits) -> Result<ConsolePart, OutOfMemory>
        requires { Fits limits.now }
        ensures { IfOk result (λ part. part ≡ empty_console limits.now) }
    {
        let ring = Ring::new(alloc, PENDING_LIMIT)?;
        let mut objects = Objects::new(alloc, ObjType::Console, 1, limits.tasks)?;
        objects.create(console_name(), ());
        Ok(ConsolePart {
            objects,
            enabled: true,
            ring,
        })
    }

    /// Whether bytes are pending. The cost is constant.
    pub fn is_pending(&self) -> bool
        ensures { result ≡ of_console.is_pending self.now }
    {
        !self.ring.is_empty()
    }

    /// Whether an identifier is the console's. The cost is constant.
    pub fn active(&self, id: OsalId) -> bool
        ensures { result ≡ of_console.is_active self.now id }
    {
        self.objects.is_active(id)
    }

    /// Whether the end of a task's wait would not wait on: no task waits here.
    pub fn ready(&self, task: OsalId, now: Moment, part: u32) -> bool
        requires { part ≡ 8 }
        ensures { result ≡ of_console.ready self.now task now }
    {
        true
    }

    /// Makes a call that is the part's own. The bytes of the reply are left in the room.
    pub fn apply(
        &mut self,
        alloc: Global,
        task: OsalId,
        now: Moment,
        call: &Call,
        room: &mut Room,
    ) -> Result<Ack, OutOfMemory>
        requires { IsTrue (part_of call.now == 8) }
        ensures step { IfOk result (λ ack. (replied ack room.new, self.new) ≡ console_step self.old task now call.now) }
        ensures memory { IsOk result }
    {
        room.clear();
        Ok(match call {
            Call::ConsoleWrite { payload } => self.console_write(payload),
            Call::ConsoleEnable => self.console_enable(),
            Call::ConsoleDisable => self.console_disable(),
            Call::Drain { n } => self.drain(*n, room),
            Call::Hold { id } => self.objects.hold(*id),
            Call::Release { id } => self.objects.release(*id),
            Call::WaitEnd { .. } | Call::WaitAbandon { .. } => {
                Ack::refused(Status::ErrIncorrectObjState)
            }
            _ => unreachable!(),
        })
    }
}
