//! Values at their shortest: numbers, strings, payloads and registers.
ghost use Rattle.std.specs.Prelude.{◌≡◌, ◌≤◌, ◌+◌, ◌-◌, ◌*◌, ◌^◌, ◌==◌, ◌++◌, true, false, length, min, nat_lt, flat_map, MatchOption, OnOk};
ghost use Rattle.std.specs.List.{list_all};
ghost use Rattle.osal_line.specs.Words.{is_line_byte};
ghost use Rattle.osal_print.specs.Shortest as shortest;
ghost use Rattle.osal_print.specs.PrintText.{spaced};

use itoa::Buffer;
use osal_base::OutOfMemory;
use osal_line::{Literal, Register, RegisterSet, is_line};
use osal_spelling::{hex_digit, push_bytes, push_decimal};

/// Appends a number in decimal, or in hexadecimal where that is shorter.
pub(crate) fn push_number(out: &mut Vec<u8>, number: u64) -> Result<(), OutOfMemory>
    ensures { OnOk result (out.new.items ≡ out.old.items ++ shortest.number_text number) }
{
    let mut buffer = Buffer::new();
    let decimal = buffer.format(number).as_bytes();
    let hexadecimal = format!(in *out.allocator(); "0x{number:x}")?;
    if hexadecimal.len() < decimal.len() {
        push_bytes(out, hexadecimal.as_bytes())
    } else {
        push_bytes(out, decimal)
    }
}

/// Whether a byte stands for itself in a string, or behind a backslash: blanks do.
fn is_plain(byte: u8) -> bool
    ensures { result ≡ is_line_byte byte }
{
    is_line(&[byte])
}

/// Appends a byte of a string.
fn push_string_byte(out: &mut Vec<u8>, byte: u8) -> Result<(), OutOfMemory>
    ensures { OnOk result (out.new.items ≡ out.old.items ++ shortest.string_byte byte) }
{
    if byte == b'"' || byte == b'\\' {
        push_bytes(out, &[b'\\', byte])
    } else if byte == b'\n' {
        push_bytes(out, b"\\n")
    } else if is_plain(byte) {
        push_bytes(out, &[byte])
    } else {
        let (high, low) = (u64::from(byte) / 16, u64::from(byte) % 16);
        push_bytes(out, &[b'\\', b'x', hex_digit(high), hex_digit(low)])
    }
}

fn push_string_bytes(out: &mut Vec<u8>, bytes: &[u8]) -> Result<(), OutOfMemory>
    ensures { OnOk result (out.new.items ≡ out.old.items ++ flat_map shortest.string_byte bytes.now) }
{
    for byte in bytes {
        push_string_byte(out, *byte)?;
    }
    Ok(())
}

/// Appends a string.
#[tactic(auto, unfolding(crate::specs::Shortest::string_text))]
pub(crate) fn push_string(out: &mut Vec<u8>, bytes: &[u8]) -> Result<(), OutOfMemory>
    ensures { OnOk result (out.new.items ≡ out.old.items ++ shortest.string_text bytes.now) }
{
    push_bytes(out, b"\"")?;
    push_string_bytes(out, bytes)?;
    push_bytes(out, b"\"")?;
    Ok(())
}

/// How many bytes a byte takes in a string.
fn byte_length(byte: u8) -> usize
    ensures { result ≡ length (shortest.string_byte byte) }
{
    if byte == b'"' || byte == b'\\' || byte == b'\n' {
        2
    } else if is_plain(byte) {
        1
    } else {
        4
    }
}

/// How many bytes a string takes that is one byte so many times, or the most that there can be.
fn repeated_length(count: usize, byte: u8) -> usize
    ensures { result ≡ min (2 ^ 64 - 1) (count * length (shortest.string_byte byte) + 2) }
{
    count.saturating_mul(byte_length(byte)).saturating_add(2)
}

/// How many bytes a fill takes.
fn fill_length(count: usize, byte: u8) -> usize
    ensures value { result ≡ shortest.fill_length count byte }
    ensures few { result ≤ 86 }
{
    let (mut counted, mut filled) = (Buffer::new(), Buffer::new());
    6 + counted.format(count).len() + filled.format(byte).len()
}

/// Whether a fill is shorter than the string of a byte so many times.
fn is_fill_shorter(count: usize, byte: u8) -> bool
    ensures { result
        ≡ nat_lt (shortest.fill_length count byte) (count * length (shortest.string_byte byte) + 2) }
{
    fill_length(count, byte) < repeated_length(count, byte)
}

/// Whether each of some bytes is this one.
fn are_all(bytes: &[u8], byte: u8) -> bool
    ensures { result ≡ list_all (λ other. other == byte) bytes.now }
{
    bytes.iter().all(|other| *other == byte)
}

/// The byte of the fill that says these bytes and is shorter than their string, if there is one.
fn filler(bytes: &[u8]) -> Option<u8>
    ensures { MatchOption result
        (shortest.is_filled bytes.now ≡ false)
        (λ byte. (shortest.is_filled bytes.now ≡ true) × (byte ≡ shortest.filler bytes.now)) }
{
    let (byte, others) = bytes.split_first()?;
    if are_all(others, *byte) && is_fill_shorter(bytes.len(), *byte) {
        Some(*byte)
    } else {
        None
    }
}

/// Appends the words of a payload, each behind a space: a string, or a fill where that is shorter.
pub(crate) fn push_payload(out: &mut Vec<u8>, payload: &Literal) -> Result<(), OutOfMemory>
    ensures { OnOk result (out.new.items
        ≡ out.old.items ++ spaced (shortest.payload_words payload.now)) }
{
    let bytes = payload.as_slice();
    match filler(bytes) {
        Some(byte) => push_fill(out, bytes.len() as u64, byte),
        None => {
            push_bytes(out, b" ")?;
            push_string(out, bytes)
        }
    }
}

fn push_fill(out: &mut Vec<u8>, count: u64, byte: u8) -> Result<(), OutOfMemory>
    ensures { OnOk result (out.new.items
        ≡ out.old.items ++ spaced (shortest.fill_words count byte)) }
{
    push_bytes(out, b" fill ")?;
    push_decimal(out, count)?;
    push_bytes(out, b" ")?;
    push_decimal(out, u64::from(byte))
}

/// Appends a register: `$a` for the first of a body, and so on, with digits behind the letters.
pub(crate) fn push_register(out: &mut Vec<u8>, register: Register) -> Result<(), OutOfMemory>
    ensures { OnOk result (out.new.items ≡ out.old.items ++ shortest.register_text register) }
{
    let index = register.index() as u8;
    let name = if index < 26 {
        b'a' + index
    } else {
        b'0' + (index - 26)
    };
    push_bytes(out, &[b'$', name])
}

fn push_more_registers(out: &mut Vec<u8>, registers: &[Register]) -> Result<(), OutOfMemory>
    ensures { OnOk result (out.new.items ≡ out.old.items ++ shortest.more_registers registers.now) }
{
    for register in registers {
        push_bytes(out, b",")?;
        push_register(out, *register)?;
    }
    Ok(())
}

/// Appends a set of registers, or a dash where there are none.
pub(crate) fn push_set(out: &mut Vec<u8>, set: &RegisterSet) -> Result<(), OutOfMemory>
    ensures { OnOk result (out.new.items ≡ out.old.items ++ shortest.set_text set.now) }
{
    match set.as_slice().split_first() {
        None => push_bytes(out, b"-"),
        Some((register, others)) => {
            push_register(out, *register)?;
            push_more_registers(out, others)
        }
    }
}
