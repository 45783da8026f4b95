//! The calls without arguments.
ghost use Rattle.std.specs.Prelude.{◌≡◌, [], false, MatchOption};
ghost use Rattle.osal_call.specs.Call.{said};
ghost use Rattle.osal_call.specs.Shapes.{is_bare};
ghost use Rattle.osal_call.specs.Signature.{spelled};
ghost use Rattle.osal_call.specs.Signature as words;

use super::CallWord;
use crate::Call;

/// The calls without arguments, but for the exit of a task, which ends its script.
#[derive(Clone, Copy)]
pub enum BareWord {
    ConsoleEnable,
    ConsoleDisable,
}

/// Each call without arguments, but for the exit of a task.
pub(super) const BARE: [CallWord; 2] = [
    CallWord::Bare(BareWord::ConsoleEnable),
    CallWord::Bare(BareWord::ConsoleDisable),
];

impl BareWord {
    /// The call without arguments.
    pub fn call(self) -> Call
        ensures value { result ≡ words.bare_call self }
        ensures plain { said result ≡ words.bare_call self }
    {
        match self {
            BareWord::ConsoleEnable => Call::ConsoleEnable,
            BareWord::ConsoleDisable => Call::ConsoleDisable,
        }
    }

    pub(super) fn text(self) -> &'static [u8]
        ensures { result.now ≡ words.bare_text self }
    {
        match self {
            BareWord::ConsoleEnable => b"console_enable",
            BareWord::ConsoleDisable => b"console_disable",
        }
    }
}

/// The name of a call without arguments.
pub(crate) fn bare_of(call: &Call) -> Option<&'static [u8]>
    ensures { MatchOption result
        (is_bare (spelled call.now).arguments ≡ false)
        (λ found. spelled call.now ≡ record { name = found.now; arguments = [] }) }
{
    Some(match call {
        Call::TaskExit => CallWord::TaskExit.text(),
        Call::Checkpoint => b"checkpoint",
        Call::ConsoleEnable => BareWord::ConsoleEnable.text(),
        Call::ConsoleDisable => BareWord::ConsoleDisable.text(),
        _ => return None,
    })
}
