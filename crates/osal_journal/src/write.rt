//! Writing the text of a journal in pieces.
ghost use Rattle.std.specs.Prelude.{◌≡◌, ◌++◌, OnOk};
ghost use Rattle.osal_outside.specs.Causes.{HasCause, RoseIf, WhereTold};
ghost use Rattle.osal_outside.specs.Sink.{Appends, AppendsPrefix};
ghost use Rattle.osal_journal.specs.JournalText.{journal_text};
ghost use Rattle.osal_journal.specs.Writing.{is_write_failed, IsSentTo};
ghost use Rattle.osal_journal.specs.declared.write.WriteFault.TheVariants as fault;

use crate::entry::push_entry;
use crate::text::HEAD;
use osal_base::OutOfMemory;
use osal_call::Journal;
use osal_outside::{Sink, WriteFailed, send_all};
use osal_spelling::push_bytes;
use std::alloc::Global;

/// How many bytes are sent at once, or a few more: a piece ends with a line.
const PIECE: usize = 8192;

/// Why the text of a journal was not written whole.
#[derive(Clone, Copy, Debug, PartialEq, Eq)]
pub enum WriteFault {
    /// There was no memory for a piece of it.
    OutOfMemory,
    /// The sink failed.
    WriteFailed,
}

impl From<OutOfMemory> for WriteFault {
    ghost from_gives = { λ _ e. e ≡ fault.OutOfMemory };

    fn from(_: OutOfMemory) -> WriteFault {
        WriteFault::OutOfMemory
    }
}

impl From<WriteFailed> for WriteFault {
    ghost from_gives = { λ _ e. e ≡ fault.WriteFailed };

    fn from(_: WriteFailed) -> WriteFault {
        WriteFault::WriteFailed
    }
}

// Sends a piece that is full, and begins the next.
fn send_full<K: Sink>(piece: &mut Vec<u8>, sink: &mut K) -> Result<(), WriteFailed>
    ensures sent { OnOk result (IsSentTo piece.old.items piece.new.items (K.written sink.old) (K.written sink.new)) }
    ensures prefix { WhereTold (K.written sink.old) (K.written sink.new) (AppendsPrefix piece.old.items) }
    ensures cause { HasCause (K.faults sink.old) (K.faults sink.new) result }
{
    if piece.len() < PIECE {
        return Ok(());
    }
    send_all(sink, piece.as_slice())?;
    piece.clear();
    Ok(())
}

/// Writes the text of a journal, or a prefix of it where the sink fails or memory is wanting.
///
/// It has a piece of some 8,192 bytes at a time, and one line more, in memory. The cost is linear in the length of the
/// text. Nothing is handed on: that is the caller's flush.
pub fn write_journal<K: Sink>(
    alloc: Global,
    journal: &Journal,
    sink: &mut K,
) -> Result<(), WriteFault>
    ensures all { OnOk result (WhereTold (K.written sink.old) (K.written sink.new)
        (Appends (journal_text journal.now.entries))) }
    ensures prefix { WhereTold (K.written sink.old) (K.written sink.new)
        (AppendsPrefix (journal_text journal.now.entries)) }
    ensures cause { RoseIf (is_write_failed result) (K.faults sink.old) (K.faults sink.new) }
{
    let mut piece = Vec::new(alloc);
    push_bytes(&mut piece, HEAD)?;
    for (position, entry) in journal.entries().iter().enumerate() {
        send_full(&mut piece, sink)?;
        push_entry(&mut piece, position as u64, entry)?;
    }
    send_all(sink, piece.as_slice())?;
    Ok(())
}
