//! Moments of virtual time, and how long a call may wait.
ghost use Rattle.std.specs.Prelude.{◌≡◌};
ghost use Rattle.osal_base.specs.Time.{is_check, later, deadline_of, has_come};

/// A moment in milliseconds since the start.
#[derive(Clone, Copy, Debug, PartialEq, Eq, PartialOrd, Ord)]
pub struct Moment {
    pub ms: u64,
}

impl Moment {
    /// The start of virtual time.
    pub const START: Moment = Moment { ms: 0 };

    /// The moment so many milliseconds later, or the last moment where the sum passes it.
    pub fn later(self, ms: u32) -> Moment
        ensures { result ≡ later self ms }
    {
        Moment {
            ms: self.ms.saturating_add(u64::from(ms)),
        }
    }

    /// Whether a deadline has come at this moment: one that is not there never comes.
    pub fn has_reached(self, deadline: Option<Moment>) -> bool
        ensures { result ≡ has_come deadline self }
    {
        match deadline {
            None => false,
            Some(deadline) => deadline.ms <= self.ms,
        }
    }
}

/// How long a call waits where it cannot answer at once.
#[derive(Clone, Copy, Debug, PartialEq, Eq)]
pub enum Timeout {
    /// Not at all (`OS_CHECK`).
    Check,
    /// Without a deadline (`OS_PEND`).
    Pend,
    /// That many milliseconds; 0 means `Check`.
    Ms(u32),
}

impl Timeout {
    /// Whether the call may not wait at all.
    pub fn is_check(self) -> bool
        ensures { result ≡ is_check self }
    {
        match self {
            Timeout::Check => true,
            Timeout::Pend => false,
            Timeout::Ms(ms) => ms == 0,
        }
    }

    /// When a wait that begins now is due, where it has a deadline.
    pub fn deadline(self, now: Moment) -> Option<Moment>
        ensures { result ≡ deadline_of self now }
    {
        match self {
            Timeout::Check => Some(now),
            Timeout::Pend => None,
            Timeout::Ms(ms) => Some(now.later(ms)),
        }
    }
}
