//! What holds of every history of the machine, as clauses of functions that do nothing.
ghost use Rattle.osal_laws.specs.ConsoleText.{ConsoleKeepsItsBytes};
ghost use Rattle.osal_laws.specs.QueueLaw.{QueuesKeepTheirOrder};
ghost use Rattle.osal_laws.specs.Steps.{StepsTurnOne, EndedWaitsAreOver};
ghost use Rattle.osal_laws.specs.Values.{ValuesAreBounded};
ghost use Rattle.osal_laws.specs.Holds.{HoldsAreThoseMade};
ghost use Rattle.osal_laws.specs.Laws.{InactiveIdentifiersAreRefused, StaleIdentifiersAreRefused, WrapCountRises, HeldObjectsAreKept, RefusedCallsChangeNothing, EndsThatWaitChangeNothing, EndsOfNoWaitChangeNothing, ObjectsAreCounted, TablesAreWellFormed, CallsChangeTheirPart, PartsReplayAlone, MarkedTasksAreUnheld, DeletedTasksAreGone, TimersAreAttached, TicksFireFew};

/// An entry on an identifier that is not active is refused by that, where nothing refuses it before.
#[tactic(auto, using(crate::proofs::Stale::stale_refused))]
pub fn stale_identifiers_are_refused()
    ensures { StaleIdentifiersAreRefused }
{}

/// An entry on an identifier that is not active is refused by that, whatever table its call is on, where nothing refuses
/// it before.
#[tactic(auto, using(crate::proofs::Inactive::inactive_refused))]
pub fn inactive_identifiers_are_refused()
    ensures { InactiveIdentifiersAreRefused }
{}

/// A step makes at most one identifier active or not active.
pub fn steps_turn_one()
    ensures { StepsTurnOne }
{}

/// Between two entries that make the same identifier active the wrap count of its type rises.
#[tactic(auto, using(crate::proofs::Replays::wraps_rise))]
pub fn wrap_count_rises()
    ensures { WrapCountRises }
{}

/// An entry that makes an identifier not active found no holds on it.
#[tactic(auto, using(crate::proofs::Replays::held_kept))]
pub fn held_objects_are_kept()
    ensures { HeldObjectsAreKept }
{}

/// A call that answers a code below 0 changes nothing.
#[tactic(auto, using(crate::proofs::Kept::refused_kept))]
pub fn refused_calls_change_nothing()
    ensures { RefusedCallsChangeNothing }
{}

/// The end of a wait that waits on changes nothing.
#[tactic(auto, using(crate::proofs::Kept::waiting_kept))]
pub fn ends_that_wait_change_nothing()
    ensures { EndsThatWaitChangeNothing }
{}

/// The end of a wait in a part where the task has none is refused and changes nothing.
#[tactic(auto, using(crate::proofs::Kept::no_wait_kept))]
pub fn ends_of_no_wait_change_nothing()
    ensures { EndsOfNoWaitChangeNothing }
{}

/// The end of an open wait that does not wait on removes its record and gives its holds back, whatever it answers.
pub fn ended_waits_are_over()
    ensures { EndedWaitsAreOver }
{}

/// Semaphores count to 32,767 at most, locks are 1 to 32,767 deep, priorities at most 255, and queues have at most their
/// depth of messages, each of 1 byte to their size.
#[tactic(auto, using(crate::proofs::Bounded::values_bounded))]
pub fn values_are_bounded()
    ensures { ValuesAreBounded }
{}

/// The holds of an object are those of callers and the open waits that stand on it.
#[tactic(auto, using(crate::proofs::Counted::objects_counted))]
pub fn objects_are_counted()
    ensures { ObjectsAreCounted }
{}

/// Since an object became active its holds are the accepted holds less the accepted releases, and the open waits that
/// stand on it.
#[tactic(auto, using(crate::proofs::HoldsMade::holds_made))]
pub fn holds_are_those_made()
    ensures { HoldsAreThoseMade }
{}

/// The tables of the parts are well formed.
#[tactic(auto, using(crate::proofs::Counted::tables_well_formed))]
pub fn tables_are_well_formed()
    ensures { TablesAreWellFormed }
{}

/// A call changes its own part alone.
pub fn calls_change_their_part()
    ensures { CallsChangeTheirPart }
{}

/// The replay of a part depends on its own entries alone.
#[tactic(auto, using(crate::proofs::Alone::parts_alone))]
pub fn parts_replay_alone()
    ensures { PartsReplayAlone }
{}

/// A task that is marked for deletion is not held.
#[tactic(auto, using(crate::proofs::Marked::marked_unheld))]
pub fn marked_tasks_are_unheld()
    ensures { MarkedTasksAreUnheld }
{}

/// A checkpoint that answers that its task was deleted has removed it.
#[tactic(auto, using(crate::proofs::Marked::deleted_are_gone))]
pub fn deleted_tasks_are_gone()
    ensures { DeletedTasksAreGone }
{}

/// The gets of a queue give the messages that it accepted, in order, each once; the rest is what it holds.
#[tactic(auto, using(crate::proofs::QueueLaw::order_kept))]
pub fn queues_keep_their_order()
    ensures { QueuesKeepTheirOrder }
{}

/// The drains of the console give the bytes of accepted writes, in order, each once; the rest is pending.
#[tactic(auto, using(crate::proofs::ConsoleText::console_kept))]
pub fn console_keeps_its_bytes()
    ensures { ConsoleKeepsItsBytes }
{}

/// Each timebase has active timers of its own, each once, and each active timer stands in the list of its timebase.
#[tactic(auto, using(crate::proofs::Attached::attached_replayed))]
pub fn timers_are_attached()
    ensures { TimersAreAttached }
{}

/// A tick tells of no more timers, in twelve bytes each, than a timebase may have, nor than there may be.
#[tactic(auto, using(crate::proofs::Attached::ticks_few))]
pub fn ticks_fire_few()
    ensures { TicksFireFew }
{}
