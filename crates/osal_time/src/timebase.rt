//! One timebase, and the timers that are attached to it.
ghost use Rattle.std.specs.Prelude.{◌≡◌, ◌≤◌, ◌<◌, ◌+◌, length};
ghost use Rattle.osal_time.specs.Timebase.{new_timebase, with_timer, without_timer, sum_limit};
ghost use Rattle.osal_call.specs.Firing.{timer_limit};

use arrayvec::ArrayVec;
use osal_base::OsalId;
use std::marker::Model;

/// The most microseconds to which a timebase runs: 2^62.
pub(crate) const SUM_LIMIT: u64 = 4_611_686_018_427_387_904;

/// A running sum of microseconds, and at most 64 timers in the order of their attachment.
///
/// It takes no memory of its own.
#[derive(Drop)]
pub struct Timebase {
    sum: u64,
    // Raw, since an ArrayVec fills its free places with a default, which an identifier has not.
    timers: ArrayVec<u32, 64>,
}

impl Model for Timebase {
    ghost use Rattle.osal_time.specs.Timebase.{Timebase, IsBounded};

    ghost Value = { Timebase };

    ghost view = { λ a. record { sum = a.sum; timers = a.timers.items } };

    ghost invariant = { λ a. IsBounded (record { sum = a.sum; timers = a.timers.items }) };
}

impl Timebase {
    /// A timebase at the start of its time, without timers. It takes no memory.
    pub(crate) fn new() -> Timebase
        ensures { result ≡ new_timebase }
    {
        Timebase {
            sum: 0,
            timers: ArrayVec::new(),
        }
    }

    /// The microseconds so far, at most 2^62.
    pub fn sum(&self) -> u64
        ensures value { result ≡ self.now.sum }
        ensures bound { result ≤ sum_limit }
    {
        self.sum
    }

    /// The timers, in the order of their attachment, each as the number that its identifier is.
    pub(crate) fn timers(&self) -> &[u32]
        ensures value { result.now ≡ self.now.timers }
        ensures bound { length self.now.timers ≤ timer_limit }
    {
        self.timers.as_slice()
    }

    /// Lets the sum rise.
    pub(crate) fn run(&mut self, usecs: u32)
        requires { self.old.sum + usecs ≤ sum_limit }
        ensures { self.new ≡ record self.old { sum = self.old.sum + usecs } }
    {
        self.sum += u64::from(usecs);
    }

    /// Attaches a timer, behind the others.
    pub(crate) fn attach(&mut self, timer: OsalId)
        requires { length self.old.timers < timer_limit }
        ensures { self.new ≡ with_timer self.old timer }
    {
        self.timers.push(timer.raw());
    }

    /// Detaches a timer. It looks at each of them.
    pub(crate) fn detach(&mut self, timer: OsalId)
        ensures { self.new ≡ without_timer self.old timer }
    {
        self.timers.retain(|other| *other != timer.raw());
    }
}
