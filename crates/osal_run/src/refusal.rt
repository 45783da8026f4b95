//! Why a run is refused before it begins.
ghost use Rattle.std.specs.Prelude.{◌≡◌, IfOk};
ghost use Rattle.osal_run.specs.Checks.{refusal_text, fault_text};

use osal_base::{Bytes, OutOfMemory};
use osal_reading::AppFault;
use std::alloc::Global;

/// The first check that refuses.
#[derive(Clone, Copy, Debug, PartialEq, Eq)]
pub enum Refusal {
    /// The words are none of the forms.
    Usage,
    /// The shelf tells that there is no such file.
    Missing,
    /// The file has more than 1,048,576 bytes.
    Larger,
    /// The text is no application.
    Unread(AppFault),
    /// The application costs more than 300,000.
    Costly,
}

impl Refusal {
    /// The text that tells of the refusal.
    #[tactic(auto, unfolding(crate::specs::Checks::refusal_text))]
    pub fn text(self, alloc: Global) -> Result<Bytes, OutOfMemory>
        ensures { IfOk result (λ text. text.bytes ≡ refusal_text self) }
    {
        match self {
            Refusal::Usage => {
                Bytes::copy(alloc, b"usage: osal-run FILE | --journal FILE | --make N\n")
            }
            Refusal::Missing => Bytes::copy(alloc, b"osal-run: no such file\n"),
            Refusal::Larger => {
                Bytes::copy(alloc, b"osal-run: file is larger than 1048576 bytes\n")
            }
            Refusal::Unread(fault) => fault_line(alloc, fault),
            Refusal::Costly => {
                Bytes::copy(alloc, b"osal-run: application costs more than 300000\n")
            }
        }
    }
}

fn fault_line(alloc: Global, fault: AppFault) -> Result<Bytes, OutOfMemory>
    ensures { IfOk result (λ text. text.bytes ≡ fault_text fault) }
{
    let (line, kind) = (fault.line, fault.kind.text());
    let text = format!(in alloc; "osal-run: line {line}: {kind}\n")?;
    Bytes::copy(alloc, text.as_bytes())
}
