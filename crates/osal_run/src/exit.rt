//! Exit statuses.
ghost use Rattle.std.specs.Prelude.{◌≡◌};
ghost use Rattle.osal_report.specs.Status.{end_status};
ghost use Rattle.osal_run.specs.Outcome.{exit_number, IsFinished};

use osal_report::End;

/// How a run ended, as its exit status says.
#[derive(Clone, Copy, Debug, PartialEq, Eq)]
pub enum Exit {
    /// Each case passed.
    Passed,
    /// A case failed.
    Failed,
    /// The words or the application were refused.
    Refused,
    /// A wait is open that nothing will end.
    Stalled,
    /// The source failed.
    SourceFault,
    /// The sink failed.
    SinkFault,
    /// There was no memory to go on.
    NoMemory,
}

impl Exit {
    /// How a run ended whose tasks came to this end.
    pub(crate) fn finished(end: End) -> Exit
        ensures value { exit_number result ≡ end_status end }
        ensures done { IsFinished result }
    {
        if end.stalled {
            Exit::Stalled
        } else if end.fails {
            Exit::Failed
        } else {
            Exit::Passed
        }
    }

    /// The number of the status.
    pub fn number(self) -> u8
        ensures { result ≡ exit_number self }
    {
        match self {
            Exit::Passed => 0,
            Exit::Failed => 1,
            Exit::Refused => 2,
            Exit::Stalled => 3,
            Exit::SourceFault => 4,
            Exit::SinkFault => 5,
            Exit::NoMemory => 6,
        }
    }
}
