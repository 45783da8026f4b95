//! The driver of an application's tasks, on one thread.
ghost use Rattle.std.specs.Prelude.{◌≡◌, ◌≤◌, [], None, length, replicate, IfOk, OnOk, OnErr};
ghost use Rattle.osal_base.specs.Limits.{version1};
ghost use Rattle.osal_machine.specs.Step.{opening};
ghost use Rattle.osal_script.specs.Cost.{cost_of};
ghost use Rattle.osal_runs.specs.Runs.{IsPartRun, IsRun};
ghost use Rattle.osal_outside.specs.Causes.{RoseIf, WhereTold};
ghost use Rattle.osal_outside.specs.Sink.{Appends, AppendsPrefix};
ghost use Rattle.osal_laws.specs.ConsoleText.{console_text, drained};
ghost use Rattle.osal_exec.specs.Telling.{is_sink_halt, is_sink_fault};
ghost use Rattle.osal_exec.specs.declared.driver.Outcome.TheVariants as outcome;

use crate::Gate;
use crate::stage::{Halt, Stage};
use osal_base::OutOfMemory;
use osal_call::Journal;
use osal_outside::Sink;
use osal_script::App;
use std::alloc::Global;

/// How a run ended.
#[derive(Clone, Copy, Debug, PartialEq, Eq)]
pub enum Outcome {
    /// No task can go on, no wait becomes due, and all that the tasks wrote to the console is written.
    Settled,
    /// The sink failed.
    SinkFault,
    /// There was no memory to go on.
    OutOfMemory,
}

/// Runs the tasks on a stage that has just been opened, until the run is settled.
fn run_on<'a, K: Sink, G: Gate>(
    stage: &mut Stage<'a>,
    alloc: Global,
    app: &'a App,
    sink: &mut K,
    gate: &G,
    journal: &mut Journal,
) -> Result<(), Halt>
    requires machine { stage.old.whole ≡ opening version1 }
    requires runners { stage.old.runners ≡ replicate 64 None }
    requires empty { journal.old.entries ≡ [] }
    requires room { cost_of app.now ≤ journal.old.spare }
    ensures settled { OnOk result (IsRun app.now journal.new.entries) }
    ensures halted { OnErr result (IsPartRun app.now journal.new.entries) }
    ensures few { length journal.new.entries ≤ cost_of app.now }
    ensures told { OnOk result (WhereTold (K.written sink.old) (K.written sink.new) (Appends (drained journal.new.entries))) }
    ensures prefix { WhereTold (K.written sink.old) (K.written sink.new) (AppendsPrefix (drained journal.new.entries)) }
    ensures cause { RoseIf (is_sink_halt result) (K.faults sink.old) (K.faults sink.new) }
{
    match stage.begin(alloc, app, journal) {
        Ok(()) => {}
        Err(OutOfMemory) => return Err(Halt::OutOfMemory),
    }
    while stage.turn(alloc, app, sink, gate, journal)? {}
    Ok(())
}

/// The room for a run's journal, and a stage that has just been opened.
fn prepare<'a>(alloc: Global, app: &'a App, journal: &mut Journal) -> Result<Stage<'a>, OutOfMemory>
    requires { cost_of app.now ≤ 300000 }
    ensures machine { IfOk result (λ stage. stage.whole ≡ opening version1) }
    ensures runners { IfOk result (λ stage. stage.runners ≡ replicate 64 None) }
    ensures entries { journal.new.entries ≡ journal.old.entries }
    ensures room { OnOk result (cost_of app.now ≤ journal.new.spare) }
{
    journal.reserve(app.cost())?;
    Stage::open(alloc)
}

/// Runs the tasks of an application until the run is settled.
fn run_tasks<K: Sink, G: Gate>(
    alloc: Global,
    app: &App,
    sink: &mut K,
    gate: &G,
    journal: &mut Journal,
) -> Result<(), Halt>
    requires empty { journal.old.entries ≡ [] }
    requires cost { cost_of app.now ≤ 300000 }
    ensures settled { OnOk result (IsRun app.now journal.new.entries) }
    ensures halted { OnErr result (IsPartRun app.now journal.new.entries) }
    ensures few { length journal.new.entries ≤ cost_of app.now }
    ensures told { OnOk result (WhereTold (K.written sink.old) (K.written sink.new) (Appends (drained journal.new.entries))) }
    ensures prefix { WhereTold (K.written sink.old) (K.written sink.new) (AppendsPrefix (drained journal.new.entries)) }
    ensures cause { RoseIf (is_sink_halt result) (K.faults sink.old) (K.faults sink.new) }
{
    match prepare(alloc, app, journal) {
        Ok(mut stage) => run_on(&mut stage, alloc, app, sink, gate, journal),
        Err(OutOfMemory) => Err(Halt::OutOfMemory),
    }
}

/// Runs an application in rounds, on a machine with the limits of version 1, in virtual time.
///
/// In a round each task that can go on runs, in the order of the slots, until its script ends or waits; a task that is
/// created or becomes ready meanwhile waits for the next round. Between rounds the console is drained into the sink, and
/// the waits of deleted tasks are given up. Where no task can go on, time goes on to the next deadline of an open wait.
///
/// The journal takes memory for the whole cost first; where there is none, or none for a reply, the entries so far stay.
/// The sink is asked where bytes are pending, and is not flushed.
pub fn drive<K: Sink, G: Gate>(
    alloc: Global,
    app: &App,
    sink: &mut K,
    gate: &G,
    journal: &mut Journal,
) -> Outcome
    requires empty { journal.old.entries ≡ [] }
    requires cost { cost_of app.now ≤ 300000 }
    ensures settled { result ≡ outcome.Settled → IsRun app.now journal.new.entries }
    ensures part { IsPartRun app.now journal.new.entries }
    ensures few { length journal.new.entries ≤ cost_of app.now }
    ensures written { result ≡ outcome.Settled
        → WhereTold (K.written sink.old) (K.written sink.new) (Appends (console_text journal.new.entries)) }
    ensures prefix { WhereTold (K.written sink.old) (K.written sink.new) (AppendsPrefix (console_text journal.new.entries)) }
    ensures cause { RoseIf (is_sink_fault result) (K.faults sink.old) (K.faults sink.new) }
{
    match run_tasks(alloc, app, sink, gate, journal) {
        Ok(()) => Outcome::Settled,
        Err(Halt::SinkFault) => Outcome::SinkFault,
        Err(Halt::OutOfMemory) => Outcome::OutOfMemory,
    }
}
