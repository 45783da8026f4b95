//! What a run goes on with: a machine, and the tasks whose scripts run on it.
ghost use Rattle.std.specs.Prelude.{◌≡◌, ◌<◌, ◌≤◌, true, false, [], None, length, replicate, MatchOption, IfOk, OnOk, OnErr};
ghost use Rattle.osal_base.specs.Limits.{version1};
ghost use Rattle.osal_machine.specs.Step.{opening};
ghost use Rattle.osal_call.specs.declared.call.Call.TheVariants.{Advance};
ghost use Rattle.osal_script.specs.App.{NamesLater};
ghost use Rattle.osal_script.specs.Cost.{cost_of};
ghost use Rattle.osal_runs.specs.Segments.{segments_of};
ghost use Rattle.osal_runs.specs.Waiting.{some_can_go};
ghost use Rattle.osal_runs.specs.Runs.{IsPartRun, IsRun};
ghost use Rattle.osal_exec.specs.Running.{runner_at, can_run, is_lost, IsLostIn, MayMake, NoneRuns, NoneIsLost, AreMembers};
ghost use Rattle.osal_console.specs.Console.{is_pending};
ghost use Rattle.osal_laws.specs.ConsoleText.{drained};
ghost use Rattle.osal_outside.specs.Causes.{RoseIf};
ghost use Rattle.osal_exec.specs.Telling.{Tells, TellsPrefix, is_sink_halt};
ghost use Rattle.osal_exec.specs.Driving.{MakesEntry, drive_of, IsDriven, AddsEntry, IsSteady, MayCreate, Takes, Since, HasPlayed, HasTurned};

use crate::Gate;
use crate::runners::Runners;
use osal_base::{Bytes, Limits, OsalId, OutOfMemory, Reply, Room};
use osal_call::{Call, Entry, Journal};
use osal_machine::Whole;
use osal_outside::{Sink, WriteFailed, send_all};
use osal_script::{App, Phase, Step};
use std::alloc::Global;

/// The most bytes that one drain takes.
const DRAIN_LIMIT: u32 = 1024;

/// Why a run stops before it is settled.
#[derive(Clone, Copy, Debug, PartialEq, Eq)]
pub(crate) enum Halt {
    /// The sink failed.
    SinkFault,
    /// There was no memory to go on.
    OutOfMemory,
}

/// A machine, the room for the bytes of its replies, and the tasks whose scripts run on it.
#[derive(Drop)]
pub(crate) struct Stage<'a> {
    whole: Whole,
    room: Room,
    runners: Runners<'a>,
}

/// Makes a call of the machine at its moment, and gives the entry.
#[inline(always)] // an entry is large to move
fn entry_of(
    alloc: Global,
    whole: &mut Whole,
    room: &mut Room,
    caller: u32,
    task: OsalId,
    call: Call,
) -> Result<Entry, OutOfMemory>
    ensures { IfOk result (λ entry. MakesEntry caller task call whole.old whole.new entry) }
{
    let now = whole.moment();
    let ack = whole.apply(alloc, task, now, &call, room)?;
    let bytes = Bytes::copy(alloc, room.as_slice())?;
    let reply = Reply {
        answer: ack.answer,
        number: ack.number,
        bytes,
    };
    Ok(Entry {
        caller,
        task,
        now,
        call,
        reply,
    })
}

impl<'a> Stage<'a> {
    /// A machine with the limits of version 1, on which no task runs.
    pub(crate) fn open(alloc: Global) -> Result<Stage<'a>, OutOfMemory>
        ensures machine { IfOk result (λ stage. stage.whole ≡ opening version1) }
        ensures runners { IfOk result (λ stage. stage.runners ≡ replicate 64 None) }
    {
        let runners = Runners::new(alloc)?;
        let whole = Whole::open(alloc, &Limits::version1())?;
        Ok(Stage {
            whole,
            room: Room::new(),
            runners,
        })
    }

    /// Whether the task in a slot goes on at once. The machine is asked only where it waits.
    pub(crate) fn can_run(&self, slot: u32) -> bool
        requires { slot < 64 }
        ensures { result ≡ can_run self.now.whole (runner_at self.now.runners slot) }
    {
        let Some(runner) = self.runners.at(slot) else {
            return false;
        };
        match runner.cursor().phase() {
            Phase::Before | Phase::At | Phase::Leaving { .. } => true,
            Phase::Waiting { part } => self.whole.ready(runner.id(), self.whole.moment(), part),
            Phase::Ended => false,
        }
    }

    /// Where the task in a slot waits, though it was deleted: the line, and the part.
    fn lost(&self, slot: u32) -> Option<(u32, u32)>
        requires { slot < 64 }
        ensures { MatchOption result
            (is_lost self.now.whole (runner_at self.now.runners slot) ≡ false)
            (λ at. IsLostIn self.now.whole (runner_at self.now.runners slot) at.1) }
    {
        let runner = self.runners.at(slot)?;
        let Phase::Waiting { part } = runner.cursor().phase() else {
            return None;
        };
        if self.whole.goes(runner.id()) {
            return None;
        }
        let line = match runner.cursor().line() {
            Some(line) => line.number,
            None => 0,
        };
        Some((line, part))
    }

    /// Makes a call of the task in a slot, which passes the gate first, and goes on by its entry.
    fn take<G: Gate>(
        &mut self,
        alloc: Global,
        app: &'a App,
        gate: &G,
        journal: &mut Journal,
        slot: u32,
        line: u32,
        call: Call,
    ) -> Result<(), OutOfMemory>
        requires within { slot < 64 }
        requires driven { IsDriven app.now (drive_of journal.old self.old.whole self.old.runners) }
        requires may { MayMake self.old.whole (runner_at self.old.runners slot) call }
        requires creates { MayCreate app.now journal.old.entries call }
        ensures driven { OnOk result (IsDriven app.now (drive_of journal.new self.new.whole self.new.runners)) }
        ensures taken { OnOk result (Takes app.now slot call
            (drive_of journal.old self.old.whole self.old.runners)
            (drive_of journal.new self.new.whole self.new.runners)) }
        ensures memory { OnErr result (journal.new.entries ≡ journal.old.entries) }
        ensures undrained { drained journal.new.entries ≡ drained journal.old.entries }
    {
        let id = match self.runners.at(slot) {
            Some(runner) => runner.id(),
            None => unreachable!(),
        };
        gate.pass(id, line);
        let made = entry_of(alloc, &mut self.whole, &mut self.room, slot + 1, id, call)?;
        self.runners.follow(slot, &made);
        self.runners.admit(app, &made);
        journal.push(made);
        Ok(())
    }

    /// Makes the next call of the task in a slot.
    fn go_on<G: Gate>(
        &mut self,
        alloc: Global,
        app: &'a App,
        gate: &G,
        journal: &mut Journal,
        slot: u32,
    ) -> Result<(), OutOfMemory>
        requires within { slot < 64 }
        requires steady { IsSteady app.now (drive_of journal.old self.old.whole self.old.runners) }
        requires ready { can_run self.old.whole (runner_at self.old.runners slot) ≡ true }
        ensures steady { OnOk result (IsSteady app.now (drive_of journal.new self.new.whole self.new.runners)) }
        ensures grown { OnOk result (length journal.old.entries < length journal.new.entries) }
        ensures memory { OnErr result (journal.new.entries ≡ journal.old.entries) }
        ensures undrained { drained journal.new.entries ≡ drained journal.old.entries }
    {
        let step = match self.runners.at(slot) {
            Some(runner) => runner.cursor().step(alloc)?,
            None => unreachable!(),
        };
        match step {
            Step::Make { line, call } => self.take(alloc, app, gate, journal, slot, line, call),
            Step::Finished => unreachable!(),
        }
    }

    /// Ends the wait of the deleted task in a slot: a checkpoint tells it, and the wait is given up.
    fn leave<G: Gate>(
        &mut self,
        alloc: Global,
        app: &'a App,
        gate: &G,
        journal: &mut Journal,
        slot: u32,
        line: u32,
        part: u32,
    ) -> Result<(), OutOfMemory>
        requires within { slot < 64 }
        requires steady { IsSteady app.now (drive_of journal.old self.old.whole self.old.runners) }
        requires lost { IsLostIn self.old.whole (runner_at self.old.runners slot) part }
        ensures steady { OnOk result (IsSteady app.now (drive_of journal.new self.new.whole self.new.runners)) }
        ensures grown { OnOk result (length journal.old.entries < length journal.new.entries) }
        ensures memory { OnErr result (IsPartRun app.now journal.new.entries) }
        ensures undrained { drained journal.new.entries ≡ drained journal.old.entries }
    {
        self.take(alloc, app, gate, journal, slot, line, Call::Checkpoint)?;
        let call = Call::WaitAbandon { part };
        self.take(alloc, app, gate, journal, slot, line, call)
    }

    /// The part of the task in a slot of a round: its script goes on until it ends or waits.
    fn run<G: Gate>(
        &mut self,
        alloc: Global,
        app: &'a App,
        gate: &G,
        journal: &mut Journal,
        slot: u32,
    ) -> Result<(), OutOfMemory>
        requires within { slot < 64 }
        requires steady { IsSteady app.now (drive_of journal.old self.old.whole self.old.runners) }
        ensures steady { OnOk result (IsSteady app.now (drive_of journal.new self.new.whole self.new.runners)) }
        ensures still { OnOk result (Since
            (drive_of journal.old self.old.whole self.old.runners)
            (drive_of journal.new self.new.whole self.new.runners)
            (can_run self.old.whole (runner_at self.old.runners slot) ≡ false)) }
        ensures memory { OnErr result (IsPartRun app.now journal.new.entries) }
        ensures undrained { drained journal.new.entries ≡ drained journal.old.entries }
    {
        while self.can_run(slot) {
            self.go_on(alloc, app, gate, journal, slot)?;
        }
        Ok(())
    }

    /// Ends the wait of each deleted task that waits, in the order of their slots.
    fn leave_all<G: Gate>(
        &mut self,
        alloc: Global,
        app: &'a App,
        gate: &G,
        journal: &mut Journal,
    ) -> Result<(), OutOfMemory>
        requires steady { IsSteady app.now (drive_of journal.old self.old.whole self.old.runners) }
        ensures steady { OnOk result (IsSteady app.now (drive_of journal.new self.new.whole self.new.runners)) }
        ensures still { OnOk result (Since
            (drive_of journal.old self.old.whole self.old.runners)
            (drive_of journal.new self.new.whole self.new.runners)
            (NoneIsLost self.old.whole self.old.runners 64)) }
        ensures memory { OnErr result (IsPartRun app.now journal.new.entries) }
        ensures undrained { drained journal.new.entries ≡ drained journal.old.entries }
    {
        let used = self.runners.used();
        for slot in 0..used {
            if let Some((line, part)) = self.lost(slot) {
                self.leave(alloc, app, gate, journal, slot, line, part)?;
            }
        }
        Ok(())
    }

    /// Which tasks go on at once, by their slots. Only the slots that have had a task are asked.
    fn members(&self) -> [bool; 64]
        ensures { AreMembers self.now.whole self.now.runners result 64 }
    {
        let mut members = [false; 64];
        let used = self.runners.used();
        for slot in 0..used {
            members[slot as usize] = self.can_run(slot);
        }
        members
    }

    /// A round: the tasks that go on at its start, in the order of their slots, each as far as it goes.
    fn round<G: Gate>(
        &mut self,
        alloc: Global,
        app: &'a App,
        gate: &G,
        journal: &mut Journal,
    ) -> Result<(), OutOfMemory>
        requires steady { IsSteady app.now (drive_of journal.old self.old.whole self.old.runners) }
        ensures steady { OnOk result (IsSteady app.now (drive_of journal.new self.new.whole self.new.runners)) }
        ensures still { OnOk result (Since
            (drive_of journal.old self.old.whole self.old.runners)
            (drive_of journal.new self.new.whole self.new.runners)
            (NoneRuns self.old.whole self.old.runners 64)) }
        ensures memory { OnErr result (IsPartRun app.now journal.new.entries) }
        ensures undrained { drained journal.new.entries ≡ drained journal.old.entries }
    {
        let members = self.members();
        let used = self.runners.used();
        for slot in 0..used {
            if members[slot as usize] {
                self.run(alloc, app, gate, journal, slot)?;
            }
        }
        Ok(())
    }

    /// Makes time go on.
    fn advance(&mut self, alloc: Global, journal: &mut Journal, to: u64) -> Result<(), OutOfMemory>
        requires { 0 < journal.old.spare }
        ensures made { OnOk result (AddsEntry 0 0 (Advance to) self.old.whole self.new.whole journal.old journal.new) }
        ensures runners { self.new.runners ≡ self.old.runners }
        ensures memory { OnErr result (journal.new.entries ≡ journal.old.entries) }
    {
        let call = Call::Advance { to };
        let made = entry_of(
            alloc,
            &mut self.whole,
            &mut self.room,
            0,
            OsalId::UNDEFINED,
            call,
        )?;
        journal.push(made);
        Ok(())
    }

    /// Drains the console once, and writes what it gave.
    fn drain_once<K: Sink>(
        &mut self,
        alloc: Global,
        app: &'a App,
        sink: &mut K,
        journal: &mut Journal,
    ) -> Result<(), Halt>
        requires steady { IsSteady app.now (drive_of journal.old self.old.whole self.old.runners) }
        requires some { is_pending self.old.whole.console ≡ true }
        ensures steady { OnOk result (IsSteady app.now (drive_of journal.new self.new.whole self.new.runners)) }
        ensures grown { OnOk result (length journal.old.entries < length journal.new.entries) }
        ensures halted { OnErr result (IsPartRun app.now journal.new.entries) }
        ensures told { OnOk result (Tells journal.old.entries journal.new.entries (K.written sink.old) (K.written sink.new)) }
        ensures prefix { TellsPrefix journal.old.entries journal.new.entries (K.written sink.old) (K.written sink.new) }
        ensures cause { RoseIf (is_sink_halt result) (K.faults sink.old) (K.faults sink.new) }
    {
        let call = Call::Drain { n: DRAIN_LIMIT };
        let (whole, room) = (&mut self.whole, &mut self.room);
        let Ok(made) = entry_of(alloc, whole, room, 0, OsalId::UNDEFINED, call) else {
            return Err(Halt::OutOfMemory);
        };
        let sent = send_all(sink, made.reply.bytes.as_slice());
        journal.push(made);
        match sent {
            Ok(()) => Ok(()),
            Err(WriteFailed) => Err(Halt::SinkFault),
        }
    }

    /// Drains the console, and writes what it gives, until no byte is pending. Where none is, the sink is not asked.
    fn drain<K: Sink>(
        &mut self,
        alloc: Global,
        app: &'a App,
        sink: &mut K,
        journal: &mut Journal,
    ) -> Result<(), Halt>
        requires steady { IsSteady app.now (drive_of journal.old self.old.whole self.old.runners) }
        ensures steady { OnOk result (IsSteady app.now (drive_of journal.new self.new.whole self.new.runners)) }
        ensures still { OnOk result (Since
            (drive_of journal.old self.old.whole self.old.runners)
            (drive_of journal.new self.new.whole self.new.runners)
            (is_pending self.old.whole.console ≡ false)) }
        ensures halted { OnErr result (IsPartRun app.now journal.new.entries) }
        ensures told { OnOk result (Tells journal.old.entries journal.new.entries (K.written sink.old) (K.written sink.new)) }
        ensures prefix { TellsPrefix journal.old.entries journal.new.entries (K.written sink.old) (K.written sink.new) }
        ensures cause { RoseIf (is_sink_halt result) (K.faults sink.old) (K.faults sink.new) }
    {
        while self.whole.is_console_pending() {
            self.drain_once(alloc, app, sink, journal)?;
        }
        Ok(())
    }

    /// The round of the tasks, and what comes before it. It answers whether the journal has grown.
    fn play<G: Gate>(
        &mut self,
        alloc: Global,
        app: &'a App,
        gate: &G,
        journal: &mut Journal,
    ) -> Result<bool, OutOfMemory>
        requires steady { IsSteady app.now (drive_of journal.old self.old.whole self.old.runners) }
        ensures played { IfOk result (λ more. HasPlayed app.now
            (drive_of journal.old self.old.whole self.old.runners)
            (drive_of journal.new self.new.whole self.new.runners)
            more) }
        ensures memory { OnErr result (IsPartRun app.now journal.new.entries) }
        ensures undrained { drained journal.new.entries ≡ drained journal.old.entries }
    {
        let before = journal.len();
        self.leave_all(alloc, app, gate, journal)?;
        self.round(alloc, app, gate, journal)?;
        if before < journal.len() {
            return Ok(true);
        }
        let Some(to) = self.whole.next_deadline() else {
            return Ok(false);
        };
        self.advance(alloc, journal, to)?;
        Ok(true)
    }

    /// What comes between two rounds, and the round, or else the next moment. It answers false where the run is settled.
    ///
    /// The console is drained first, where a round has left bytes on it.
    pub(crate) fn turn<K: Sink, G: Gate>(
        &mut self,
        alloc: Global,
        app: &'a App,
        sink: &mut K,
        gate: &G,
        journal: &mut Journal,
    ) -> Result<bool, Halt>
        requires { IsSteady app.now (drive_of journal.old self.old.whole self.old.runners) }
        ensures turned { IfOk result (λ more. HasTurned app.now
            (drive_of journal.old self.old.whole self.old.runners)
            (drive_of journal.new self.new.whole self.new.runners)
            more) }
        ensures halted { OnErr result (IsPartRun app.now journal.new.entries) }
        ensures told { OnOk result (Tells journal.old.entries journal.new.entries (K.written sink.old) (K.written sink.new)) }
        ensures prefix { TellsPrefix journal.old.entries journal.new.entries (K.written sink.old) (K.written sink.new) }
        ensures cause { RoseIf (is_sink_halt result) (K.faults sink.old) (K.faults sink.new) }
    {
        let before = journal.len();
        self.drain(alloc, app, sink, journal)?;
        match self.play(alloc, app, gate, journal) {
            Ok(more) => Ok(more || before < journal.len()),
            Err(OutOfMemory) => Err(Halt::OutOfMemory),
        }
    }

    /// The first entry: the machine creates the first body's task, under the body's own name.
    pub(crate) fn begin(
        &mut self,
        alloc: Global,
        app: &'a App,
        journal: &mut Journal,
    ) -> Result<(), OutOfMemory>
        requires machine { self.old.whole ≡ opening version1 }
        requires runners { self.old.runners ≡ replicate 64 None }
        requires empty { journal.old.entries ≡ [] }
        requires room { cost_of app.now ≤ journal.old.spare }
        ensures steady { OnOk result (IsSteady app.now (drive_of journal.new self.new.whole self.new.runners)) }
        ensures memory { OnErr result (journal.new.entries ≡ []) }
        ensures undrained { drained journal.new.entries ≡ [] }
    {
        let call = Call::TaskCreate {
            name: Bytes::copy(alloc, app.main().name().as_slice())?,
            body: 0,
            stack: 0,
            priority: 0,
        };
        let made = entry_of(
            alloc,
            &mut self.whole,
            &mut self.room,
            0,
            OsalId::UNDEFINED,
            call,
        )?;
        self.runners.admit(app, &made);
        journal.push(made);
        Ok(())
    }
}
