//! What holds of every table over any calls, as clauses of functions that do nothing.
ghost use Rattle.osal_idtable.specs.Laws.{SerialsRise, NotReissued, NoneFreeMeansFull};
ghost use Rattle.osal_idtable.specs.WellFormed.{StaysWellFormed};

/// Each reservation moves the course of serials on, until the wrap count is at its greatest.
pub fn serials_rise<T>()
    ensures { SerialsRise T }
{}

/// An identifier that was issued is not issued again before the wrap count has risen.
pub fn not_reissued<T>()
    ensures { NotReissued T }
{}

/// A reservation finds no free identifier only where each slot has one that is active or reserved.
pub fn none_free_means_full<T>()
    ensures { NoneFreeMeansFull T }
{}

/// A table is well formed at its opening, and each call keeps it so.
pub fn stays_well_formed<T>()
    ensures { StaysWellFormed T }
{}
