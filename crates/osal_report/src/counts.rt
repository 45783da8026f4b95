//! How many cases pass and fail.
ghost use Rattle.std.specs.Prelude.{◌≡◌, ◌+◌, ◌<◌, ◌^◌, ◌++◌, OnOk, if◌then◌else◌};
ghost use Rattle.osal_report.specs.Report.{counts_text};

use osal_base::OutOfMemory;
use osal_spelling::{push_bytes, push_decimal};

/// How many cases pass and fail.
#[derive(Clone, Copy)]
pub(crate) struct Counts {
    pub(crate) pass: u64,
    pub(crate) fail: u64,
}

impl Counts {
    /// No cases.
    pub(crate) const NONE: Counts = Counts { pass: 0, fail: 0 };

    /// The counts with one more case.
    pub(crate) fn with(self, pass: bool) -> Counts
        requires { self.pass + self.fail < 2 ^ 63 }
        ensures pass { result.pass ≡ self.pass + (if pass then 1 else 0) }
        ensures fail { result.fail ≡ self.fail + (if pass then 0 else 1) }
    {
        if pass {
            Counts {
                pass: self.pass + 1,
                fail: self.fail,
            }
        } else {
            Counts {
                pass: self.pass,
                fail: self.fail + 1,
            }
        }
    }

    /// The counts of both.
    pub(crate) fn plus(self, other: Counts) -> Counts
        requires pass { self.pass + other.pass < 2 ^ 64 }
        requires fail { self.fail + other.fail < 2 ^ 64 }
        ensures { result ≡ record { pass = self.pass + other.pass; fail = self.fail + other.fail } }
    {
        Counts {
            pass: self.pass + other.pass,
            fail: self.fail + other.fail,
        }
    }
}

/// Appends the counts at a line's end.
#[tactic(auto, unfolding(crate::specs::Report::counts_text))]
pub(crate) fn push_counts(out: &mut Vec<u8>, counts: Counts) -> Result<(), OutOfMemory>
    ensures { OnOk result (out.new.items ≡ out.old.items ++ counts_text counts.pass counts.fail) }
{
    push_bytes(out, b" PASS ")?;
    push_decimal(out, counts.pass)?;
    push_bytes(out, b" FAIL ")?;
    push_decimal(out, counts.fail)?;
    push_bytes(out, b"\n")
}
