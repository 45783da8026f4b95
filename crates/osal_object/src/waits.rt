//! The open waits of a part.
ghost use Rattle.std.specs.Prelude.{◌≡◌, ◌<◌, ◌==◌, ℕ, Bool, false, length, find, map, Some, None, IfOk, MatchOption, option_copied};
ghost use Rattle.std.specs.List.{list_any, slice_get};
ghost use Rattle.osal_base.specs.Limits.{IsCapacity};
ghost use Rattle.osal_object.specs.Waits.{no_waits, new_wait, wait_of, is_due, stands_on, waits_on, wait_fault, with_wait, without_wait, released_if, released_where};
ghost use Rattle.osal_object.specs.Order.{tasks_of};
ghost use Rattle.osal_object.specs.Turns.{IsTurn};
ghost use Rattle.osal_object.specs.Tests.{Computes};
ghost use Rattle.osal_object.specs.Deadlines.{deadline_above, deadlines_in, least, sooner};

use crate::Standing;
use crate::guesses::Guesses;
use crate::held::{Held, Place, places};
use osal_base::{Moment, OsalId, OutOfMemory, Status, Timeout};
use std::alloc::Global;
use std::marker::Model;

/// A call that waits. It is `open -> ended` or `open -> abandoned`; meanwhile it may be released.
#[derive(Debug, Drop)]
pub struct WaitRecord<W> {
    /// Whose call it is.
    pub task: OsalId,
    /// What it waits for.
    pub what: W,
    /// What it holds.
    pub on: Standing,
    /// The moment from which it is due, where it has one.
    pub deadline: Option<Moment>,
    /// Whether somebody has released it: it is ready then.
    pub released: bool,
}

impl<W> WaitRecord<W> {
    /// The wait of a task's call that waits from now on.
    pub fn new(task: OsalId, what: W, on: Standing, wait: Timeout, now: Moment) -> WaitRecord<W>
        ensures { result ≡ new_wait task what on wait now }
    {
        WaitRecord {
            task,
            what,
            on,
            deadline: wait.deadline(now),
            released: false,
        }
    }

    /// Whether its deadline has come.
    pub fn is_due(&self, now: Moment) -> bool
        ensures { result ≡ is_due self.now now }
    {
        now.has_reached(self.deadline)
    }

    /// Its deadline in milliseconds, if that lies behind a moment.
    fn deadline_above(&self, now: Moment) -> Option<u64>
        ensures { result ≡ least (deadline_above now self.now.deadline) }
    {
        match self.deadline {
            Some(deadline) if now.ms < deadline.ms => Some(deadline.ms),
            _ => None,
        }
    }

    /// Whether it stands on an object.
    pub fn stands_on(&self, id: OsalId) -> bool
        ensures { result ≡ stands_on id self.now }
    {
        self.on.is_on(id)
    }
}

/// The open waits of a part, oldest first: at most one of a task, and so many as there may be tasks.
///
/// A look for a task walks over identifiers alone, and the end of a wait moves identifiers and boxes, never another record.
#[derive(Debug, Drop)]
pub(crate) struct Waits<W> {
    /// Whose each open wait is.
    tasks: Vec<OsalId>,
    open: Vec<Held<W>>,
    /// For the waits that are to come.
    free: Vec<Place<W>>,
    guesses: Guesses,
    capacity: u32,
}

impl<W> Model for Waits<W> {
    ghost use Rattle.std.specs.Prelude.{◌≤◌, length};
    ghost use Rattle.std.specs.Vec.{vec_capacity};
    ghost use Rattle.osal_object.specs.Waits.{WaitsState};
    ghost use Rattle.osal_object.specs.Order.{AreOrdered};

    ghost Value = { WaitsState W };

    ghost view = { λ a. record { records = a.open.items; capacity = a.capacity } };

    ghost invariant = { λ a.
        AreOrdered a.tasks.items a.open.items (length a.free.items) a.capacity × (a.capacity ≤ 1024)
        × (a.capacity ≤ vec_capacity a.tasks) × (a.capacity ≤ vec_capacity a.open) × (a.capacity ≤ vec_capacity a.free) };
}

impl<W> Waits<W> {
    /// The turn of a task's open wait, the oldest's being 0. It looks at each task at most, and mostly at one.
    pub(crate) fn turn_of(&self, task: OsalId) -> Option<usize>
        ensures { MatchOption result (wait_of self.now task ≡ None) (IsTurn self.now task) }
    {
        turn_by(self.tasks.as_slice(), task, self.guesses.turn_of(task))
    }

    /// The open wait that has a turn.
    pub(crate) fn at(&self, turn: usize) -> &WaitRecord<W>
        requires { turn < length self.now.records }
        ensures { Some result.now ≡ slice_get self.now.records turn }
    {
        self.open[turn].record()
    }

    /// The open wait of a task. It looks at each task at most.
    pub(crate) fn wait_of(&self, task: OsalId) -> Option<&WaitRecord<W>>
        ensures { option_copied result ≡ wait_of self.now task }
    {
        match self.turn_of(task) {
            Some(turn) => Some(self.at(turn)),
            None => None,
        }
    }

    /// The oldest wait that passes a test. It looks at each wait at most.
    pub(crate) fn first_where<F: Fn(&WaitRecord<W>) -> bool>(
        &self,
        test: F,
    ) -> Option<&WaitRecord<W>>
        requires { F.IsAlwaysCallable test }
        ensures { (passes : WaitRecord W → Bool) → Computes F.Fn test passes
            → option_copied result ≡ find passes self.now.records }
    {
        first_passing(self.open.as_slice(), test)
    }

    /// Why a task may not begin a wait: it waits already, or there is no room for one more.
    pub(crate) fn fault(&self, task: OsalId) -> Option<Status>
        ensures { result ≡ wait_fault self.now task }
    {
        if self.wait_of(task).is_some() {
            return Some(Status::ErrIncorrectObjState);
        }
        if self.open.len() < self.capacity as usize {
            return None;
        }
        Some(Status::Error)
    }

    /// How many open waits stand on an object. It looks at each.
    pub(crate) fn count_on(&self, id: OsalId) -> u32
        ensures { result ≡ waits_on self.now id }
    {
        let mut count = 0;
        for held in &self.open {
            if held.record().stands_on(id) {
                count += 1;
            }
        }
        count
    }

    /// The least deadline behind a moment, in milliseconds, if there is one. It looks at each wait.
    pub(crate) fn next_deadline(&self, now: Moment) -> Option<u64>
        ensures { result ≡ least (deadlines_in now self.now.records) }
    {
        let mut next = None;
        for held in &self.open {
            next = sooner(next, held.record().deadline_above(now));
        }
        next
    }
}

impl<W: Drop> Waits<W> {
    /// No open waits, with the memory for so many.
    pub(crate) fn new(alloc: Global, capacity: u32) -> Result<Waits<W>, OutOfMemory>
        requires { IsCapacity capacity }
        ensures { IfOk result (λ waits. waits ≡ no_waits capacity) }
    {
        let tasks = Vec::with_capacity(alloc, capacity as usize)?;
        let open = Vec::with_capacity(alloc, capacity as usize)?;
        let free = places(alloc, capacity)?;
        Ok(Waits {
            tasks,
            open,
            free,
            guesses: Guesses::none(),
            capacity,
        })
    }

    /// Adds a wait, the newest. It takes no memory.
    pub(crate) fn open(&mut self, wait: WaitRecord<W>)
        requires fresh { wait_of self.old wait.task ≡ None }
        requires room { length self.old.records < self.old.capacity }
        ensures { self.new ≡ with_wait self.old wait }
    {
        let place = self.free.pop().unwrap();
        self.guesses.begin(wait.task, self.tasks.len());
        self.tasks.push_reserved(wait.task);
        self.open.push_reserved(place.fill(wait));
    }

    /// Takes the wait out that has a turn. It moves the later turns, and no record.
    pub(crate) fn close(&mut self, turn: usize)
        requires { turn < length self.old.records }
        ensures { (task : ℕ) → IsTurn self.old task turn → self.new ≡ without_wait self.old task }
    {
        let _task = self.tasks.remove(turn);
        let held = self.open.remove(turn);
        self.free.push_reserved(held.empty());
        self.guesses.end();
    }

    /// Releases each wait that passes a test.
    pub(crate) fn release_where<F: Fn(&WaitRecord<W>) -> bool>(&mut self, test: F)
        requires { F.IsAlwaysCallable test }
        ensures { (passes : WaitRecord W → Bool) → Computes F.Fn test passes
            → self.new ≡ released_where self.old passes }
    {
        release_passing(self.open.as_mut_slice(), test);
    }
}

/// Where a task stands among some: at the guess, or it is looked for.
fn turn_by(tasks: &[OsalId], task: OsalId, guess: usize) -> Option<usize>
    ensures { MatchOption result
        (list_any (λ other. other == task) tasks.now ≡ false)
        (λ turn. slice_get tasks.now turn ≡ Some task) }
{
    match tasks.get(guess) {
        Some(other) if *other == task => Some(guess),
        _ => turn_among(tasks, task),
    }
}

/// Where a task stands among some. It looks at each.
fn turn_among(tasks: &[OsalId], task: OsalId) -> Option<usize>
    ensures { MatchOption result
        (list_any (λ other. other == task) tasks.now ≡ false)
        (λ turn. slice_get tasks.now turn ≡ Some task) }
{
    for turn in 0..tasks.len() {
        if tasks[turn] == task {
            return Some(turn);
        }
    }
    None
}

/// The first of the waits that passes a test.
fn first_passing<W, F: Fn(&WaitRecord<W>) -> bool>(
    waits: &[Held<W>],
    test: F,
) -> Option<&WaitRecord<W>>
    requires { F.IsAlwaysCallable test }
    ensures { (passes : WaitRecord W → Bool) → Computes F.Fn test passes
        → option_copied result ≡ find passes waits.now }
{
    for held in waits {
        let wait = held.record();
        if test(wait) {
            return Some(wait);
        }
    }
    None
}

/// Releases each of the waits that passes a test.
fn release_passing<W, F: Fn(&WaitRecord<W>) -> bool>(waits: &mut [Held<W>], test: F)
    requires { F.IsAlwaysCallable test }
    ensures tasks { tasks_of waits.new ≡ tasks_of waits.old }
    ensures passing { (passes : WaitRecord W → Bool) → Computes F.Fn test passes
        → waits.new ≡ map (released_if passes) waits.old }
{
    for held in waits.iter_mut() {
        if test(held.record()) {
            held.release();
        }
    }
}

/// The lesser of two numbers that may be there.
pub fn sooner(first: Option<u64>, second: Option<u64>) -> Option<u64>
    ensures { result ≡ sooner first second }
{
    match (first, second) {
        (Some(first), Some(second)) => Some(first.min(second)),
        (Some(first), None) => Some(first),
        (None, second) => second,
    }
}
