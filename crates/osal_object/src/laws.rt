//! What holds of the objects of every part over any calls, as clauses of functions that do nothing.
ghost use Rattle.osal_object.specs.ObjectLaws.{HoldsAreCounted, CallersHold, TablesStayWellFormed, HeldObjectsStay, NotActiveAgain};

/// The holds of an object are those of callers and the open waits that stand on it.
pub fn holds_are_counted<T, W>()
    ensures { HoldsAreCounted T W }
{}

/// Holds and releases change the holds of callers, and waits do not.
pub fn callers_hold<T, W>()
    ensures { CallersHold T W }
{}

/// The table of a part stays well formed.
pub fn tables_stay_well_formed<T, W>()
    ensures { TablesStayWellFormed T W }
{}

/// No held object is removed.
pub fn held_objects_stay<T, W>()
    ensures { HeldObjectsStay T W }
{}

/// Between two moves that make an identifier active its table's wrap count rises.
pub fn not_active_again<T, W>()
    ensures { NotActiveAgain T W }
{}
