//! One timer, and when it expires.
ghost use Rattle.std.specs.Prelude.{◌≡◌, ◌≤◌, ◌-◌};
ghost use Rattle.osal_time.specs.Expiry.{first_after, expired_by, expiries_between};
ghost use Rattle.osal_time.specs.Timebase.{sum_limit};

use osal_base::OsalId;

/// When a timer was set, and to what.
#[derive(Clone, Copy, Debug, PartialEq, Eq)]
pub struct Setting {
    /// The sum of the timebase at that time, in microseconds.
    pub at: u64,
    /// The microseconds to the first expiry, or 0 where they are those of the interval.
    pub start: u32,
    /// The microseconds between two expiries, or 0 where there is one alone.
    pub interval: u32,
}

impl Setting {
    /// How many expiries lie at a sum of the timebase or before it.
    pub(crate) fn expired_by(&self, sum: u64) -> u64
        requires { sum ≤ sum_limit }
        ensures { result ≡ expired_by self.now sum }
    {
        let first = u64::from(self.first_after());
        let elapsed = sum.saturating_sub(self.at);
        if sum < self.at || elapsed < first {
            return 0;
        }
        if self.interval == 0 {
            return 1;
        }
        (elapsed - first) / u64::from(self.interval) + 1
    }

    // The microseconds to the first expiry.
    fn first_after(&self) -> u32
        ensures { result ≡ first_after self.now }
    {
        if self.start == 0 {
            self.interval
        } else {
            self.start
        }
    }
}

/// A timer. It is `not set -> set -> set anew -> .. -> removed`, and is attached to its timebase until it is removed.
#[derive(Clone, Copy, Debug, PartialEq, Eq)]
pub struct Timer {
    /// The timebase that it is attached to.
    pub timebase: OsalId,
    /// The number that its firings tell.
    pub handler: u32,
    /// What it was last set to, where it was set.
    pub setting: Option<Setting>,
}

impl Timer {
    /// How many expiries lie above one sum of the timebase and not above another.
    #[tactic(auto, using(crate::proofs::Counting::few_between))]
    pub fn expiries_between(&self, from: u64, to: u64) -> u64
        requires from { from ≤ sum_limit }
        requires to { to ≤ sum_limit }
        ensures value { result ≡ expiries_between self.now.setting from to }
        ensures few { result ≤ to - from }
    {
        match self.setting {
            None => 0,
            Some(setting) => setting
                .expired_by(to)
                .saturating_sub(setting.expired_by(from)),
        }
    }
}
