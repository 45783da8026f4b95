//! The line of an entry.
ghost use Rattle.std.specs.Prelude.{◌≡◌, ◌++◌, ◌∷◌, [], OnOk};
ghost use Rattle.std.specs.Fmt.{decimal};
ghost use Rattle.osal_base.specs.Reply.{reply_of};
ghost use Rattle.osal_journal.specs.JournalText.{reply_text, replied_text, caller_text, entry_text};

use crate::spelled::push_call;
use osal_base::{Answer, OutOfMemory, Reply};
use osal_call::Entry;
use osal_spelling::{push_bytes, push_decimal, push_id, push_quoted, push_signed};

fn push_answer(out: &mut Vec<u8>, answer: Answer) -> Result<(), OutOfMemory>
    ensures { OnOk result (out.new.items ≡ out.old.items ++ reply_text answer) }
{
    match answer {
        Answer::Code(code) => push_signed(out, i64::from(code)),
        Answer::Waits => push_bytes(out, b"waits"),
        Answer::Go => push_bytes(out, b"go"),
        Answer::Deleted => push_bytes(out, b"deleted"),
    }
}

#[tactic(auto, unfolding(crate::specs::JournalText::replied_text))]
fn push_reply(out: &mut Vec<u8>, reply: &Reply) -> Result<(), OutOfMemory>
    ensures { OnOk result (out.new.items ≡ out.old.items ++ replied_text (reply_of reply.now)) }
{
    push_bytes(out, b" => ")?;
    push_answer(out, reply.answer)?;
    push_bytes(out, b" ")?;
    push_number(out, reply.number)?;
    push_quoted(out, reply.bytes.as_slice())?;
    push_bytes(out, b"\n")?;
    Ok(())
}

// Appends a number and a space.
fn push_number(out: &mut Vec<u8>, number: u64) -> Result<(), OutOfMemory>
    ensures { OnOk result (out.new.items ≡ out.old.items ++ (decimal number ++ 32 ∷ [])) }
{
    push_decimal(out, number)?;
    push_bytes(out, b" ")?;
    Ok(())
}

#[tactic(auto, unfolding(crate::specs::JournalText::caller_text))]
fn push_caller(out: &mut Vec<u8>, position: u64, entry: &Entry) -> Result<(), OutOfMemory>
    ensures { OnOk result (out.new.items ≡ out.old.items ++ caller_text position entry.entry.now) }
{
    push_number(out, position)?;
    push_number(out, u64::from(entry.caller))?;
    push_id(out, u64::from(entry.task.raw()))?;
    push_bytes(out, b" ")?;
    push_number(out, entry.now.ms)?;
    Ok(())
}

/// Appends the line of the entry at a position from 0.
pub(crate) fn push_entry(out: &mut Vec<u8>, position: u64, entry: &Entry) -> Result<(), OutOfMemory>
    ensures { OnOk result (out.new.items ≡ out.old.items ++ entry_text position entry.entry.now) }
{
    push_caller(out, position, entry)?;
    push_call(out, &entry.call)?;
    push_reply(out, &entry.reply)?;
    Ok(())
}
