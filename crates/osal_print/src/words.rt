//! The words of call lines, each behind a space.
ghost use Rattle.std.specs.Prelude.{◌≡◌, ◌++◌, ◌∷◌, OnOk};
ghost use Rattle.std.specs.Fmt.{decimal, signed_decimal};
ghost use Rattle.osal_journal.specs.Spelled as spelled;
ghost use Rattle.osal_print.specs.Shortest as shortest;
ghost use Rattle.osal_print.specs.Words.{expectation_words, value_words};
ghost use Rattle.osal_print.specs.PrintText.{body_name, spaced};

use crate::shortest::{push_number, push_payload, push_register, push_set, push_string};
use osal_base::{OutOfMemory, Timeout};
use osal_journal::push_wait;
use osal_line::RegisterSet;
use osal_script::{App, Expect, Literal, Register, Value};
use osal_spelling::{push_bytes, push_decimal, push_signed};

/// Appends a word.
pub(crate) fn push_word(out: &mut Vec<u8>, word: &[u8]) -> Result<(), OutOfMemory>
    ensures { OnOk result (out.new.items ≡ out.old.items ++ 32 ∷ word.now) }
{
    push_bytes(out, b" ")?;
    push_bytes(out, word)
}

/// Appends a number of 32 bits in decimal: hexadecimal is never shorter.
pub(crate) fn push_number_word(out: &mut Vec<u8>, number: u32) -> Result<(), OutOfMemory>
    ensures { OnOk result (out.new.items ≡ out.old.items ++ 32 ∷ decimal number) }
{
    push_bytes(out, b" ")?;
    push_decimal(out, u64::from(number))
}

/// Appends a string.
pub(crate) fn push_string_word(out: &mut Vec<u8>, text: &Literal) -> Result<(), OutOfMemory>
    ensures { OnOk result (out.new.items ≡ out.old.items ++ 32 ∷ shortest.string_text text.now) }
{
    push_bytes(out, b" ")?;
    push_string(out, text.as_slice())
}

/// Appends a register.
pub(crate) fn push_register_word(out: &mut Vec<u8>, register: Register) -> Result<(), OutOfMemory>
    ensures { OnOk result (out.new.items ≡ out.old.items ++ 32 ∷ shortest.register_text register) }
{
    push_bytes(out, b" ")?;
    push_register(out, register)
}

/// Appends a set of registers.
pub(crate) fn push_set_word(out: &mut Vec<u8>, set: &RegisterSet) -> Result<(), OutOfMemory>
    ensures { OnOk result (out.new.items ≡ out.old.items ++ 32 ∷ shortest.set_text set.now) }
{
    push_bytes(out, b" ")?;
    push_set(out, set)
}

/// Appends how long a call may wait.
pub(crate) fn push_wait_word(out: &mut Vec<u8>, wait: Timeout) -> Result<(), OutOfMemory>
    ensures { OnOk result (out.new.items ≡ out.old.items ++ 32 ∷ spelled.wait_text wait) }
{
    push_bytes(out, b" ")?;
    push_wait(out, wait)
}

/// Appends a number in decimal, with a minus in front where it is below 0.
pub(crate) fn push_signed_word(out: &mut Vec<u8>, number: i64) -> Result<(), OutOfMemory>
    ensures { OnOk result (out.new.items ≡ out.old.items ++ 32 ∷ signed_decimal number) }
{
    push_bytes(out, b" ")?;
    push_signed(out, number)
}

/// Appends the name of the body of that number.
pub(crate) fn push_body_word(out: &mut Vec<u8>, app: &App, number: u32) -> Result<(), OutOfMemory>
    ensures { OnOk result (out.new.items ≡ out.old.items ++ 32 ∷ body_name app.now number) }
{
    push_bytes(out, b" ")?;
    if number < app.bodies() {
        push_bytes(out, app.body(number).name().as_slice())
    } else {
        Ok(())
    }
}

/// Appends the register that a call sets, and the name or the path of what it makes.
pub(crate) fn push_made(
    out: &mut Vec<u8>,
    register: Register,
    name: &Literal,
) -> Result<(), OutOfMemory>
    ensures { OnOk result (out.new.items ≡ out.old.items
        ++ 32 ∷ shortest.register_text register ++ 32 ∷ shortest.string_text name.now) }
{
    push_register_word(out, register)?;
    push_string_word(out, name)
}

/// Appends what is taken from a queue or a stream: the room, and how long the call may wait.
pub(crate) fn push_taking(
    out: &mut Vec<u8>,
    id: Register,
    room: u32,
    wait: Timeout,
) -> Result<(), OutOfMemory>
    ensures { OnOk result (out.new.items ≡ out.old.items
        ++ 32 ∷ shortest.register_text id ++ 32 ∷ decimal room ++ 32 ∷ spelled.wait_text wait) }
{
    push_register_word(out, id)?;
    push_number_word(out, room)?;
    push_wait_word(out, wait)
}

/// Appends what is given to a queue or a stream.
pub(crate) fn push_giving(
    out: &mut Vec<u8>,
    id: Register,
    payload: &Literal,
) -> Result<(), OutOfMemory>
    ensures { OnOk result (out.new.items ≡ out.old.items
        ++ 32 ∷ shortest.register_text id ++ spaced (shortest.payload_words payload.now)) }
{
    push_register_word(out, id)?;
    push_payload(out, payload)
}

/// Appends two numbers.
pub(crate) fn push_number_words(
    out: &mut Vec<u8>,
    first: u32,
    second: u32,
) -> Result<(), OutOfMemory>
    ensures { OnOk result (out.new.items
        ≡ out.old.items ++ 32 ∷ decimal first ++ 32 ∷ decimal second) }
{
    push_number_word(out, first)?;
    push_number_word(out, second)
}

fn push_value(out: &mut Vec<u8>, value: &Option<Value>) -> Result<(), OutOfMemory>
    ensures { OnOk result (out.new.items ≡ out.old.items ++ spaced (value_words value.now)) }
{
    match value {
        None => Ok(()),
        Some(Value::Number(number)) => {
            push_bytes(out, b" ")?;
            push_number(out, *number)
        }
        Some(Value::Text(text)) => push_string_word(out, text),
    }
}

/// Appends what a line expects, where it expects anything: a code is a number, which is no longer than a name.
pub(crate) fn push_expectation(
    out: &mut Vec<u8>,
    expect: &Option<Expect>,
) -> Result<(), OutOfMemory>
    ensures { OnOk result (out.new.items ≡ out.old.items ++ spaced (expectation_words expect.now)) }
{
    let Some(expect) = expect else {
        return Ok(());
    };
    push_bytes(out, b" -> ")?;
    push_signed(out, i64::from(expect.code))?;
    push_value(out, &expect.value)
}
