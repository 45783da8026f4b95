//! What a reading tells of a text, as clauses of functions that do nothing.
ghost use Rattle.std.specs.Prelude.{◌≡◌, ◌-◌, List, ℕ, Some};
ghost use Rattle.osal_reading.specs.declared.fault.AppFault.{AppFault};
ghost use Rattle.osal_reading.specs.Reading.{reading_of};
ghost use Rattle.osal_rules.specs.At.{At};
ghost use Rattle.osal_rules.specs.FirstBad.{first_bad_line, told};
ghost use Rattle.osal_rules.specs.Places.{line_in, BreaksFirst};

/// A reading tells the first bad line of a text and the first rule that it breaks, and no fault where no line is bad.
pub fn the_first_bad_line_is_told()
    ensures { (bytes : List ℕ) → told (reading_of bytes) ≡ first_bad_line bytes }
{}

/// A line that a reading tells breaks the rule that is told, and none before it.
pub fn told_lines_break_their_rule()
    ensures { (bytes : List ℕ) (fault : AppFault) (at : At)
        → told (reading_of bytes) ≡ Some fault
        → line_in bytes (fault.line - 1) ≡ Some at
        → BreaksFirst at fault.kind }
{}
