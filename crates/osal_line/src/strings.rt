//! The strings that a word stands for.
ghost use Rattle.std.specs.Prelude.{◌≡◌, List, ℕ, ◌∷◌, IfOk};
ghost use Rattle.osal_line.specs.Values as values;
ghost use Rattle.osal_line.specs.Turns.{turned, HasDigit, LeadsToDigit};

use crate::Literal;
use crate::values::digit_value;
use osal_base::{Bytes, OutOfMemory};
use std::alloc::Global;

/// Where in a quotation a byte stands.
#[derive(Clone, Copy, Debug, PartialEq, Eq)]
pub enum StringPhase {
    /// The byte stands for itself, unless it begins an escape.
    Plain,
    /// Behind a backslash.
    Backslash,
    /// The first hexadecimal digit of a byte.
    Hex,
    /// The second one, behind a first one of this value.
    HexEnd(u8),
}

/// What a byte of a quotation does.
#[derive(Clone, Copy, Debug, PartialEq, Eq)]
pub enum StringTurn {
    /// It is a part of an escape.
    Next(StringPhase),
    /// It completes a byte.
    Byte(u8),
    /// It closes the quotation.
    Close,
    /// It may not stand there.
    Wrong,
}

/// What a byte does in a phase.
fn string_turn(phase: StringPhase, byte: u8) -> StringTurn
    requires { HasDigit phase }
    ensures turned { (rest : List ℕ) → values.string_from phase (byte ∷ rest) ≡ turned result rest }
    ensures digit { LeadsToDigit result }
{
    match phase {
        StringPhase::Plain => plain_turn(byte),
        StringPhase::Backslash => escape_turn(byte),
        StringPhase::Hex => match digit_value(byte) {
            Some(high) => StringTurn::Next(StringPhase::HexEnd(high)),
            None => StringTurn::Wrong,
        },
        StringPhase::HexEnd(high) => match digit_value(byte) {
            Some(low) => StringTurn::Byte(16 * high + low),
            None => StringTurn::Wrong,
        },
    }
}

fn plain_turn(byte: u8) -> StringTurn
    ensures turned { (rest : List ℕ) → values.string_from StringPhase.Plain (byte ∷ rest) ≡ turned result rest }
    ensures digit { LeadsToDigit result }
{
    if byte == b'"' {
        return StringTurn::Close;
    }
    if byte == b'\\' {
        return StringTurn::Next(StringPhase::Backslash);
    }
    StringTurn::Byte(byte)
}

fn escape_turn(byte: u8) -> StringTurn
    ensures turned { (rest : List ℕ) → values.string_from StringPhase.Backslash (byte ∷ rest) ≡ turned result rest }
    ensures digit { LeadsToDigit result }
{
    if byte == b'"' || byte == b'\\' {
        return StringTurn::Byte(byte);
    }
    if byte == b'n' {
        return StringTurn::Byte(b'\n');
    }
    if byte == b'x' {
        return StringTurn::Next(StringPhase::Hex);
    }
    StringTurn::Wrong
}

/// The bytes that a string stands for.
pub fn string_of(alloc: Global, word: &[u8]) -> Result<Option<Literal>, OutOfMemory>
    ensures { IfOk result (λ text. text ≡ values.string_of word.now) }
{
    match word.split_first() {
        Some((b'"', rest)) => unquoted(alloc, rest),
        _ => Ok(None),
    }
}

/// The bytes that the rest of a quotation stands for.
fn unquoted(alloc: Global, bytes: &[u8]) -> Result<Option<Literal>, OutOfMemory>
    ensures { IfOk result (λ text. text ≡ values.string_from StringPhase.Plain bytes.now) }
{
    let mut text = Vec::new(alloc);
    let mut phase = StringPhase::Plain;
    for (i, byte) in bytes.iter().enumerate() {
        match string_turn(phase, *byte) {
            StringTurn::Next(next) => phase = next,
            StringTurn::Byte(byte) => {
                text.push(byte)?;
                phase = StringPhase::Plain;
            }
            StringTurn::Close if i + 1 == bytes.len() => {
                return Ok(Some(Literal::new(Bytes::copy(alloc, text.as_slice())?)));
            }
            StringTurn::Close | StringTurn::Wrong => return Ok(None),
        }
    }
    Ok(None)
}
