//! What the words of a call on files choose.
ghost use Rattle.std.specs.Prelude.{◌≡◌};
ghost use Rattle.osal_line.specs.Choices as choices;

use crate::values::{negated, number_within};
use osal_base::{Access, OpenFlags, Whence};

/// What an opening does to the file.
pub fn flags_of(word: &[u8]) -> Option<OpenFlags>
    ensures { result ≡ choices.flags_of word.now }
{
    if word == b"none".as_slice() {
        return Some(OpenFlags::Neither);
    }
    if word == b"create".as_slice() {
        return Some(OpenFlags::Create);
    }
    if word == b"truncate".as_slice() {
        return Some(OpenFlags::Truncate);
    }
    if word == b"both".as_slice() {
        return Some(OpenFlags::Both);
    }
    None
}

/// What a file is opened for.
pub fn access_of(word: &[u8]) -> Option<Access>
    ensures { result ≡ choices.access_of word.now }
{
    if word == b"ro".as_slice() {
        return Some(Access::Ro);
    }
    if word == b"wo".as_slice() {
        return Some(Access::Wo);
    }
    if word == b"rw".as_slice() {
        return Some(Access::Rw);
    }
    None
}

/// From where a seek counts.
pub fn whence_of(word: &[u8]) -> Option<Whence>
    ensures { result ≡ choices.whence_of word.now }
{
    if word == b"set".as_slice() {
        return Some(Whence::Set);
    }
    if word == b"cur".as_slice() {
        return Some(Whence::Cur);
    }
    if word == b"end".as_slice() {
        return Some(Whence::End);
    }
    None
}

/// How far a seek goes: a number of 32 bits, which may have a minus sign.
pub fn offset_of(word: &[u8]) -> Option<i64>
    ensures { result ≡ choices.offset_of word.now }
{
    let (first, rest) = word.split_first()?;
    if *first == b'-' {
        Some(negated(number_within(4294967295, rest)?))
    } else {
        Some(number_within(4294967295, word)? as i64)
    }
}
