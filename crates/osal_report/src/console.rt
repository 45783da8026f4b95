//! The console text of a journal.
ghost use Rattle.std.specs.Prelude.{◌≡◌, ◌++◌, IfOk, OnOk};
ghost use Rattle.osal_laws.specs.ConsoleText.{console_text as text_of, enabled_by, shown, shown_by};

use crate::entry::is_success;
use osal_base::{Bytes, OutOfMemory};
use osal_call::{Call, Entry, Journal};
use osal_spelling::push_bytes;
use std::alloc::Global;

/// The bytes that a journal's tasks wrote to the console while it took any, in order.
///
/// It costs the journal's length and the bytes.
pub fn console_text(alloc: Global, journal: &Journal) -> Result<Bytes, OutOfMemory>
    ensures { IfOk result (λ text. text.bytes ≡ text_of journal.now.entries) }
{
    let mut out = Vec::new(alloc);
    push_shown(&mut out, journal.entries())?;
    Ok(Bytes::from_vec(out))
}

/// Appends what some entries show on a console that takes bytes at first.
fn push_shown(out: &mut Vec<u8>, entries: &[Entry]) -> Result<(), OutOfMemory>
    ensures { OnOk result (out.new.items ≡ out.old.items ++ text_of entries.now) }
{
    let mut enabled = true;
    for entry in entries {
        push_entry(out, enabled, entry)?;
        enabled = is_enabled(enabled, &entry.call);
    }
    Ok(())
}

/// Appends what an entry shows.
fn push_entry(out: &mut Vec<u8>, enabled: bool, entry: &Entry) -> Result<(), OutOfMemory>
    ensures { OnOk result (out.new.items ≡ out.old.items ++ shown_by enabled entry.entry.now) }
{
    if !enabled || !is_success(entry.reply.answer) {
        return Ok(());
    }
    match &entry.call {
        Call::ConsoleWrite { payload } => push_bytes(out, payload.as_slice()),
        _ => Ok(()),
    }
}

/// Whether the console takes bytes after a call.
fn is_enabled(enabled: bool, call: &Call) -> bool
    ensures { result ≡ enabled_by enabled call.now }
{
    match call {
        Call::ConsoleEnable => true,
        Call::ConsoleDisable => false,
        _ => enabled,
    }
}
