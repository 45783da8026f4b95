//! Faults on purpose, at the calls that a plan lists.
ghost use Rattle.std.specs.Prelude.{◌≡◌, ◌≤◌};
ghost use Rattle.osal_outside.specs.Causes.{Rose};
ghost use Rattle.osal_outside.specs.Plan.{FaultPlan, planned, next_count, is_due, counted, failed};

use std::marker::Model;

/// Which calls fail, and how many calls and faults there were.
#[derive(Debug, Drop)]
pub struct Plan {
    fails: Vec<u64>,
    calls: u64,
    faults: u64,
}

impl Model for Plan {
    ghost use Rattle.osal_outside.specs.Plan.{FaultPlan};

    ghost Value = { FaultPlan };

    ghost view = { λ a. record { fails = a.fails.items; calls = a.calls; faults = a.faults } };

    ghost invariant = { λ a. Unit {0} };
}

impl Plan {
    /// The calls of these numbers fail, counted from 1.
    pub fn new(fails: Vec<u64>) -> Plan
        ensures { result ≡ planned fails.items }
    {
        Plan {
            fails,
            calls: 0,
            faults: 0,
        }
    }

    /// Whether the next call is one that fails.
    pub fn is_due(&self) -> bool
        ensures { result ≡ is_due self.now }
    {
        let number = self.calls.saturating_add(1);
        self.fails.iter().any(|n| *n == number)
    }

    /// A call went well.
    pub fn count(&mut self)
        ensures { self.new ≡ counted self.old }
    {
        self.calls = self.calls.saturating_add(1);
    }

    /// A call failed.
    pub fn fail(&mut self)
        ensures value { self.new ≡ failed self.old }
        ensures rose { Rose self.old.faults self.new.faults }
    {
        self.calls = self.calls.saturating_add(1);
        self.faults = self.faults.saturating_add(1);
    }

    /// How many calls failed.
    pub fn faults(&self) -> u64
        ensures { result ≡ self.now.faults }
    {
        self.faults
    }
}
