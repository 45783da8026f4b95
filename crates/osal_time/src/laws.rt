//! What holds of timers and timebases, as clauses of functions that do nothing.
ghost use Rattle.osal_base.specs.declared.limits.Limits.{Limits};
ghost use Rattle.osal_time.specs.Expiry.{ExpiriesAreCounted};
ghost use Rattle.osal_time.specs.Window.{ExpiriesLieBetween, TicksFire};
ghost use Rattle.osal_time.specs.Attachment.{TimersStayAttached, FewFire};

/// The expiries of a timer up to a sum are as many as are counted.
pub fn expiries_are_counted()
    ensures { ExpiriesAreCounted }
{}

/// Between two sums there are as many expiries of a timer as are counted, one after another.
pub fn expiries_lie_between()
    ensures { ExpiriesLieBetween }
{}

/// A tick fires exactly the timers with an expiry in it, each once, and its backlog is the number of the others.
pub fn ticks_fire()
    ensures { TicksFire }
{}

/// Each timebase has active timers of its own, each once, and each active timer stands in the list of its timebase,
/// whatever the calls of the part.
pub fn timers_stay_attached()
    ensures { (limits : Limits) → TimersStayAttached limits }
{}

/// No more timers fire in a tick than a timebase may have, nor than there may be.
pub fn few_fire()
    ensures { FewFire }
{}
