//! The payloads that words spell.
ghost use Rattle.std.specs.Prelude.{◌≡◌, [], ◌∷◌, map, IfOk};
ghost use Rattle.osal_line.specs.Payload as payload;

use crate::Literal;
use crate::strings::string_of;
use crate::values::number_within;
use osal_base::{Bytes, OutOfMemory};
use std::alloc::Global;

/// The payload that words spell: a string, or `fill` with a count and a byte.
pub fn payload_of(alloc: Global, words: &[&[u8]]) -> Result<Option<Literal>, OutOfMemory>
    ensures { IfOk result (λ found. found ≡ payload.payload_of (map (λ word. word.now) words.now)) }
{
    if words.len() == 1 {
        return string_of(alloc, words[0]);
    }
    if words.len() == 3 && is_fill(words[0]) {
        return filled(alloc, words[1], words[2]);
    }
    Ok(None)
}

fn is_fill(word: &[u8]) -> bool
    ensures { result ≡ payload.is_fill word.now }
{
    word == b"fill".as_slice()
}

/// One byte so many times.
fn filled(alloc: Global, count: &[u8], byte: &[u8]) -> Result<Option<Literal>, OutOfMemory>
    ensures { IfOk result (λ found. found ≡ payload.filled count.now byte.now) }
{
    let Some(count) = number_within(8192, count) else {
        return Ok(None);
    };
    let Some(byte) = number_within(255, byte) else {
        return Ok(None);
    };
    let bytes = vec![in alloc; byte as u8; count as usize]?;
    Ok(Some(Literal::new(Bytes::from_vec(bytes))))
}
