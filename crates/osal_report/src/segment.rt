//! The lines of a segment around its cases.
ghost use Rattle.std.specs.Prelude.{◌≡◌, ◌++◌, [], OnOk, codes, option_copied, if◌then◌else◌};
ghost use Rattle.osal_line.specs.Calls.{call_name as name_of_call};
ghost use Rattle.osal_report.specs.Report.{segment_name, begin_text, end_text, how_by_phase, is_stalled as is_stalled_phase, stall_line};
ghost use Rattle.osal_report.specs.Draft.{stall_of_line};

use crate::counts::{Counts, push_counts};
use osal_base::OutOfMemory;
use osal_script::{Line, Phase};
use osal_spelling::{push_bytes, push_decimal, push_id};

/// How a task ended, whose script has come to this phase, by whether its last entry is its exit.
pub(crate) fn how(phase: Phase, exits: bool) -> &'static [u8]
    ensures { result.now ≡ (if exits then codes " DONE" else how_by_phase phase) }
{
    if exits {
        return b" DONE";
    }
    match phase {
        Phase::Ended => b" DELETED",
        Phase::Waiting { .. } | Phase::Leaving { .. } => b" STALLED",
        Phase::Before | Phase::At => b" CUT",
    }
}

/// Whether a script that has come to this phase has an open wait.
pub(crate) fn is_stalled(phase: Phase) -> bool
    ensures { result ≡ is_stalled_phase phase }
{
    matches!(phase, Phase::Waiting { .. } | Phase::Leaving { .. })
}

/// Appends the line of a wait that is open.
fn push_stall_line(out: &mut Vec<u8>, line: &Line) -> Result<(), OutOfMemory>
    ensures { OnOk result (out.new.items
        ≡ out.old.items ++ stall_line line.now.number (name_of_call line.now.call)) }
{
    push_bytes(out, b"[STALL] line ")?;
    push_decimal(out, u64::from(line.number))?;
    push_bytes(out, b" ")?;
    push_bytes(out, line.call.name())?;
    push_bytes(out, b"\n")?;
    Ok(())
}

/// Appends the line that waits, where the phase is that of a wait.
pub(crate) fn push_stall(
    out: &mut Vec<u8>,
    phase: Phase,
    line: Option<&Line>,
) -> Result<(), OutOfMemory>
    ensures { OnOk result (out.new.items ≡ out.old.items
        ++ (if is_stalled_phase phase then stall_of_line (option_copied line.entry) else [])) }
{
    if !is_stalled(phase) {
        return Ok(());
    }
    match line {
        Some(line) => push_stall_line(out, line),
        None => Ok(()),
    }
}

/// Appends the identifier and the name of a segment.
#[tactic(auto, unfolding(crate::specs::Report::segment_name))]
fn push_segment_name(out: &mut Vec<u8>, id: u64, name: &[u8]) -> Result<(), OutOfMemory>
    ensures { OnOk result (out.new.items ≡ out.old.items ++ segment_name id name.now) }
{
    push_id(out, id)?;
    push_bytes(out, b" ")?;
    push_bytes(out, name)
}

/// Appends a segment's first line.
#[tactic(auto, unfolding(crate::specs::Report::begin_text))]
pub(crate) fn push_begin(out: &mut Vec<u8>, id: u64, name: &[u8]) -> Result<(), OutOfMemory>
    ensures { OnOk result (out.new.items ≡ out.old.items ++ begin_text id name.now) }
{
    push_bytes(out, b"[BEGIN] ")?;
    push_segment_name(out, id, name)?;
    push_bytes(out, b"\n")
}

/// Appends a segment's last line.
#[tactic(auto, unfolding(crate::specs::Report::end_text))]
pub(crate) fn push_end(
    out: &mut Vec<u8>,
    id: u64,
    name: &[u8],
    how: &[u8],
    counts: Counts,
) -> Result<(), OutOfMemory>
    ensures { OnOk result (out.new.items
        ≡ out.old.items ++ end_text id name.now how.now counts.pass counts.fail) }
{
    push_bytes(out, b"[  END] ")?;
    push_segment_name(out, id, name)?;
    push_bytes(out, how)?;
    push_counts(out, counts)
}
