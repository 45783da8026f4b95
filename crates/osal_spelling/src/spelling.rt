//! How numbers, identifiers, codes and bytes are spelled.
ghost use Rattle.std.specs.Prelude.{◌≡◌, ◌<◌, ◌++◌, ◌∷◌, [], IfOk, IsTrue, OnOk, flat_map};
ghost use Rattle.std.specs.Fmt.{decimal, signed_decimal};
ghost use Rattle.osal_spelling.specs.Spelling.{hex_digit as digit_of, id_text, code_by, code_text, answer_text, quoted_byte, quoted};

use itoa::Buffer;
use osal_base::{Answer, Bytes, OutOfMemory, Status};
use std::alloc::Global;

/// Appends the bytes as they stand.
pub fn push_bytes(out: &mut Vec<u8>, bytes: &[u8]) -> Result<(), OutOfMemory>
    ensures { OnOk result (out.new.items ≡ out.old.items ++ bytes.now) }
{
    out.extend_from_slice(bytes)?;
    Ok(())
}

/// Appends a number in decimal.
pub fn push_decimal(out: &mut Vec<u8>, number: u64) -> Result<(), OutOfMemory>
    ensures { OnOk result (out.new.items ≡ out.old.items ++ decimal number) }
{
    let mut buffer = Buffer::new();
    push_bytes(out, buffer.format(number).as_bytes())
}

/// Appends a number in decimal, with a minus in front where it is below 0.
pub fn push_signed(out: &mut Vec<u8>, number: i64) -> Result<(), OutOfMemory>
    ensures { OnOk result (out.new.items ≡ out.old.items ++ signed_decimal number) }
{
    let mut buffer = Buffer::new();
    push_bytes(out, buffer.format(number).as_bytes())
}

/// A hexadecimal digit in lower case.
pub fn hex_digit(value: u64) -> u8
    requires { value < 16 }
    ensures { result ≡ digit_of value }
{
    if value < 10 {
        48 + value as u8
    } else {
        87 + value as u8
    }
}

/// Appends an identifier: `0x` and its eight lowest hexadecimal digits.
#[tactic(auto, unfolding(crate::specs::Spelling::id_text))]
pub fn push_id(out: &mut Vec<u8>, id: u64) -> Result<(), OutOfMemory>
    ensures { OnOk result (out.new.items ≡ out.old.items ++ id_text id) }
{
    let text = [
        b'0',
        b'x',
        hex_digit(id / (1 << 28) % 16),
        hex_digit(id / (1 << 24) % 16),
        hex_digit(id / (1 << 20) % 16),
        hex_digit(id / (1 << 16) % 16),
        hex_digit(id / (1 << 12) % 16),
        hex_digit(id / (1 << 8) % 16),
        hex_digit(id / (1 << 4) % 16),
        hex_digit(id % 16),
    ];
    push_bytes(out, &text)
}

fn push_code_by(out: &mut Vec<u8>, code: i32, status: Option<Status>) -> Result<(), OutOfMemory>
    ensures { OnOk result (out.new.items ≡ out.old.items ++ code_by code status) }
{
    match status {
        Some(status) => push_bytes(out, status.name().as_bytes()),
        None => push_signed(out, i64::from(code)),
    }
}

/// Appends a code: the name of its status, or the number where no status has it.
pub fn push_code(out: &mut Vec<u8>, code: i32) -> Result<(), OutOfMemory>
    ensures { OnOk result (out.new.items ≡ out.old.items ++ code_text code) }
{
    push_code_by(out, code, Status::of(code))?;
    Ok(())
}

/// Appends an answer: its code, or the word `waits`, `go` or `deleted`.
pub fn push_answer(out: &mut Vec<u8>, answer: Answer) -> Result<(), OutOfMemory>
    ensures { OnOk result (out.new.items ≡ out.old.items ++ answer_text answer) }
{
    match answer {
        Answer::Code(code) => push_code(out, code),
        Answer::Waits => push_bytes(out, b"waits"),
        Answer::Go => push_bytes(out, b"go"),
        Answer::Deleted => push_bytes(out, b"deleted"),
    }
}

/// Whether a byte stands as it is between quotation marks.
fn is_plain(byte: u8) -> bool
    ensures { IsTrue result → quoted_byte byte ≡ byte ∷ [] }
{
    byte != b'"' && byte != b'\\' && 32 <= byte && byte <= 126
}

fn push_quoted_byte(out: &mut Vec<u8>, byte: u8) -> Result<(), OutOfMemory>
    ensures { OnOk result (out.new.items ≡ out.old.items ++ quoted_byte byte) }
{
    if byte == b'"' || byte == b'\\' {
        push_bytes(out, &[b'\\', byte])
    } else if 32 <= byte && byte <= 126 {
        push_bytes(out, &[byte])
    } else {
        let (high, low) = (u64::from(byte) / 16, u64::from(byte) % 16);
        push_bytes(out, &[b'\\', b'x', hex_digit(high), hex_digit(low)])
    }
}

// Runs of plain bytes are appended at once.
fn push_quoted_bytes(out: &mut Vec<u8>, bytes: &[u8]) -> Result<(), OutOfMemory>
    ensures { OnOk result (out.new.items ≡ out.old.items ++ flat_map quoted_byte bytes.now) }
{
    let mut from = 0;
    for (at, byte) in bytes.iter().enumerate() {
        if !is_plain(*byte) {
            push_bytes(out, &bytes[from..at])?;
            push_quoted_byte(out, *byte)?;
            from = at + 1;
        }
    }
    push_bytes(out, &bytes[from..])
}

/// Appends the bytes between quotation marks.
///
/// A quotation mark and a backslash have a backslash in front, and a byte that is no printing character of ASCII is
/// spelled `\x` and its two hexadecimal digits. The cost is linear in the bytes.
#[tactic(auto, unfolding(crate::specs::Spelling::quoted))]
pub fn push_quoted(out: &mut Vec<u8>, bytes: &[u8]) -> Result<(), OutOfMemory>
    ensures { OnOk result (out.new.items ≡ out.old.items ++ quoted bytes.now) }
{
    push_bytes(out, b"\"")?;
    push_quoted_bytes(out, bytes)?;
    push_bytes(out, b"\"")?;
    Ok(())
}

/// The bytes between quotation marks, as `push_quoted` spells them.
pub fn quote(alloc: Global, bytes: &[u8]) -> Result<Bytes, OutOfMemory>
    ensures { IfOk result (λ text. text.bytes ≡ quoted bytes.now) }
{
    let mut out = Vec::with_capacity(alloc, bytes.len().saturating_add(2))?;
    push_quoted(&mut out, bytes)?;
    Ok(Bytes::from_vec(out))
}
