//! The tasks whose scripts run, each in the slot of its identifier.
ghost use Rattle.std.specs.Prelude.{◌≡◌, ◌<◌, ◌≤◌, ◌^◌, None, Some, length, replicate, slice_set, option_copied, IfOk};
ghost use Rattle.std.specs.List.{AllByRecursion};
ghost use Rattle.osal_script.specs.Script.{after_entry, start_of};
ghost use Rattle.osal_runs.specs.Segments.{begun};
ghost use Rattle.osal_exec.specs.Running.{runner_at, slot_of_task, gone_on, with_entry, with_begun, EmptyFrom, IsIdentifier};

use osal_base::{Answer, OsalId, OutOfMemory};
use osal_call::{Call, Entry};
use osal_script::{App, Body, Cursor};
use std::alloc::Global;
use std::marker::Model;

/// How many slots there are for tasks.
const SLOTS: u32 = 64;

/// A task, and how far its script has come.
#[derive(Drop)]
pub(crate) struct Runner<'a> {
    id: OsalId,
    cursor: Cursor<'a>,
}

impl<'a> Model for Runner<'a> {
    ghost use Rattle.osal_exec.specs.Running.{Running};

    ghost Value = { Running };

    ghost view = { λ a. record { id = a.id; script = a.cursor } };

    ghost invariant = { λ a. Unit {0} };
}

impl<'a> Runner<'a> {
    /// The task.
    pub(crate) fn id(&self) -> OsalId
        ensures { result ≡ self.now.id }
    {
        self.id
    }

    /// How far its script has come.
    pub(crate) fn cursor(&self) -> &Cursor<'a>
        ensures { result.now ≡ self.now.script }
    {
        &self.cursor
    }

    /// Goes past an entry of the task.
    fn follow(&mut self, made: &Entry)
        ensures { self.new ≡ record self.old { script = after_entry self.old.script made.entry.now } }
    {
        self.cursor.follow(&made.call, &made.reply);
    }
}

/// The runner of a slot, where it has one, goes past an entry of its task.
fn follow_in(slot: &mut Option<Runner>, made: &Entry)
    ensures { slot.new ≡ gone_on made.entry.now slot.old }
{
    if let Some(runner) = slot {
        runner.follow(made);
    }
}

/// The tasks whose scripts run, each in the slot of its identifier, until another task gets the slot.
///
/// They know how many slots, from the first, may have a runner, so that a walk over them ends there.
#[derive(Drop)]
pub(crate) struct Runners<'a> {
    slots: Vec<Option<Runner<'a>>>,
    /// Each slot from there on is empty.
    used: u32,
}

impl<'a> Model for Runners<'a> {
    ghost use Rattle.std.specs.Prelude.{◌≡◌, ◌≤◌, List, Option, length};
    ghost use Rattle.osal_exec.specs.Running.{Running, EmptyFrom};

    ghost Value = { List (Option Running) };

    ghost view = { λ a. a.slots.items };

    ghost invariant = { λ a. (length a.slots.items ≡ 64) × (a.used ≤ 64) × EmptyFrom a.slots.items a.used };
}

impl<'a> Runners<'a> {
    /// No runners, with the memory for one in each slot.
    pub(crate) fn new(alloc: Global) -> Result<Runners<'a>, OutOfMemory>
        ensures { IfOk result (λ made. made ≡ replicate 64 None) }
    {
        let mut slots = Vec::with_capacity(alloc, SLOTS as usize)?;
        for _i in 0..SLOTS {
            slots.push_reserved(None);
        }
        Ok(Runners { slots, used: 0 })
    }

    /// How many slots, from the first, may have a runner.
    pub(crate) fn used(&self) -> u32
        ensures within { result ≤ 64 }
        ensures rest { EmptyFrom self.now result }
    {
        self.used
    }

    /// The runner in a slot, if there is one.
    pub(crate) fn at(&self, slot: u32) -> Option<&Runner<'a>>
        requires { slot < 64 }
        ensures { option_copied result ≡ runner_at self.now slot }
    {
        self.slots[slot as usize].as_ref()
    }

    /// The runner in a slot goes past an entry of its task.
    pub(crate) fn follow(&mut self, slot: u32, made: &Entry)
        requires { slot < 64 }
        ensures { self.new ≡ with_entry self.old slot made.entry.now }
    {
        follow_in(&mut self.slots[slot as usize], made);
    }

    /// Puts a task at the start of a body's script into its slot.
    #[inline(never)] // wherever this is in line, room for a cursor is cleared, and few entries begin a task
    fn put(&mut self, id: OsalId, app: &'a App, body: &'a Body)
        ensures { self.new ≡ slice_set self.old (slot_of_task id)
            (Some (record { id = id; script = start_of app.now.bodies body.now })) }
    {
        let slot = id.index(SLOTS);
        let cursor = Cursor::new(app, body);
        self.slots[slot as usize] = Some(Runner { id, cursor });
        self.used = self.used.max(slot + 1);
    }

    /// Takes in the task that an entry begins, if it begins one.
    pub(crate) fn admit(&mut self, app: &'a App, made: &Entry)
        requires { AllByRecursion IsIdentifier (begun app.now made.now) }
        ensures { self.new ≡ with_begun self.old (begun app.now made.entry.now) }
    {
        let Answer::Code(0) = made.reply.answer else {
            return;
        };
        if let Call::TaskCreate { body, .. } = &made.call {
            if *body < app.bodies() {
                let id = OsalId::of_raw(made.reply.number as u32);
                self.put(id, app, app.body(*body));
            }
        }
    }
}
