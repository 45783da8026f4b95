//! Runs: which journals are runs of an application, and what holds of all of them, as clauses of functions that do
//! nothing.
#![tactic(auto)]

ghost use Rattle.osal_runs.specs.Linked.{OpenWaitsAreScripts};
ghost use Rattle.osal_runs.specs.CostLaw.{CostBounds};
ghost use Rattle.osal_runs.specs.Spans.{SegmentsAreSpans};
ghost use Rattle.osal_runs.specs.Ticks.{TicksAreReadWhole};

/// Each open wait is the wait of a task whose script waits, and each script that waits has one.
pub fn open_waits_are_scripts()
    ensures { OpenWaitsAreScripts }
{}

/// A part run has no more entries than its application costs.
pub fn cost_bounds_entries()
    ensures { CostBounds }
{}

/// The segment of each task that a journal creates has the entries of its identifier up to the next creation of it.
pub fn segments_are_spans()
    ensures { SegmentsAreSpans }
{}

/// A script runs all handlers that a tick's bytes name: the machine never tells more than a script reads.
pub fn ticks_are_read_whole()
    ensures { TicksAreReadWhole }
{}
