//! The text of a journal.
ghost use Rattle.std.specs.Prelude.{◌≡◌, ◌++◌, IfOk};
ghost use Rattle.osal_journal.specs.JournalText.{journal_text as text_of};

use crate::entry::push_entry;
use osal_base::{Bytes, OutOfMemory};
use osal_call::Journal;
use osal_spelling::push_bytes;
use std::alloc::Global;

/// The first line of the text.
pub(crate) const HEAD: &[u8] = b"osal-journal 1\n";

/// The text of a journal: its first line, and a line for each entry. The cost is linear in its length.
pub fn journal_text(alloc: Global, journal: &Journal) -> Result<Bytes, OutOfMemory>
    ensures { IfOk result (λ text. text.bytes ≡ text_of journal.now.entries) }
{
    let mut out = Vec::new(alloc);
    push_bytes(&mut out, HEAD)?;
    for (position, entry) in journal.entries().iter().enumerate() {
        push_entry(&mut out, position as u64, entry)?;
    }
    Ok(Bytes::from_vec(out))
}
