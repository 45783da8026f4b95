//! The values that a word stands for.
ghost use Rattle.std.specs.Prelude.{◌≡◌, ◌≤◌, ◌<◌, ◌+◌, ◌^◌, option_copied, find, IfSome};
ghost use Rattle.std.specs.List.{list_all};
ghost use Rattle.std.specs.Str.{bytes_eq};
ghost use Rattle.osal_base.specs.Status.{status_name};
ghost use Rattle.osal_line.specs.Values as values;

use osal_base::{Status, Timeout};

/// All statuses that have a name.
const STATUSES: [Status; 28] = [
    Status::Success,
    Status::Error,
    Status::InvalidPointer,
    Status::ErrorTimeout,
    Status::SemFailure,
    Status::SemTimeout,
    Status::QueueEmpty,
    Status::QueueFull,
    Status::QueueTimeout,
    Status::QueueInvalidSize,
    Status::ErrNameTooLong,
    Status::ErrNoFreeIds,
    Status::ErrNameTaken,
    Status::ErrInvalidId,
    Status::ErrNameNotFound,
    Status::ErrInvalidPriority,
    Status::InvalidSemValue,
    Status::TimerErrInvalidArgs,
    Status::ErrObjectInUse,
    Status::ErrIncorrectObjState,
    Status::ErrIncorrectObjType,
    Status::ErrStreamDisconnected,
    Status::ErrInvalidSize,
    Status::ErrInvalidArgument,
    Status::FsErrPathTooLong,
    Status::FsErrNameTooLong,
    Status::FsErrDeviceNotFree,
    Status::FsErrPathInvalid,
];

/// The value of a digit of either case, for bases up to 16.
pub fn digit_value(byte: u8) -> Option<u8>
    ensures value { result ≡ values.digit_value byte }
    ensures small { IfSome result (λ digit. digit < 16) }
{
    if b'0' <= byte && byte <= b'9' {
        return Some(byte - 48);
    }
    if b'a' <= byte && byte <= b'f' {
        return Some(byte - 87);
    }
    if b'A' <= byte && byte <= b'F' {
        return Some(byte - 55);
    }
    None
}

/// A number with one more digit, where it stays within the greatest.
fn with_digit(base: u64, greatest: u64, number: u64, digit: Option<u8>) -> Option<u64>
    ensures value { result ≡ values.with_digit base (greatest + 1) number digit }
    ensures within { IfSome result (λ more. more ≤ greatest) }
{
    let digit = u64::from(digit?);
    if base <= digit {
        return None;
    }
    let more = number.checked_mul(base)?.checked_add(digit)?;
    if more <= greatest { Some(more) } else { None }
}

/// The number that some digits spell, where it is within the greatest.
fn digits_of(base: u64, greatest: u64, bytes: &[u8]) -> Option<u64>
    ensures value { result ≡ values.digits_of base (greatest + 1) bytes.now }
    ensures within { IfSome result (λ number. number ≤ greatest) }
{
    if bytes.is_empty() {
        return None;
    }
    let mut number = 0;
    for byte in bytes {
        number = with_digit(base, greatest, number, digit_value(*byte))?;
    }
    Some(number)
}

/// The digits behind `0x`.
fn hex_digits(word: &[u8]) -> Option<&[u8]>
    ensures { option_copied result ≡ values.hex_digits word.now }
{
    if word.len() < 2 {
        return None;
    }
    if word[0] == b'0' && word[1] == b'x' {
        Some(&word[2..])
    } else {
        None
    }
}

/// The number within the greatest that a word spells.
pub fn number_within(greatest: u64, word: &[u8]) -> Option<u64>
    ensures value { result ≡ values.number_below (greatest + 1) word.now }
    ensures within { IfSome result (λ number. number ≤ greatest) }
{
    match hex_digits(word) {
        Some(digits) => digits_of(16, greatest, digits),
        None => digits_of(10, greatest, word),
    }
}

/// The number within the greatest that a word spells, where it is not 0.
fn positive_within(greatest: u64, word: &[u8]) -> Option<u64>
    ensures value { result ≡ values.positive_below (greatest + 1) word.now }
    ensures within { IfSome result (λ number. number ≤ greatest) }
{
    match number_within(greatest, word) {
        Some(0) => None,
        number => number,
    }
}

/// The number of 32 bits that a word spells.
pub fn number_of(word: &[u8]) -> Option<u32>
    ensures { result ≡ values.number_below (2 ^ 32) word.now }
{
    Some(number_within(4294967295, word)? as u32)
}

/// The wait that a word stands for.
pub fn wait_of(word: &[u8]) -> Option<Timeout>
    ensures { result ≡ values.wait_of word.now }
{
    if word == b"check".as_slice() {
        return Some(Timeout::Check);
    }
    if word == b"pend".as_slice() {
        return Some(Timeout::Pend);
    }
    Some(Timeout::Ms(positive_within(2147483647, word)? as u32))
}

/// The name of the register that a word names behind `$`.
pub fn register_name(word: &[u8]) -> Option<&[u8]>
    ensures { option_copied result ≡ values.register_name word.now }
{
    let (first, name) = word.split_first()?;
    if *first != b'$' || name.is_empty() || 20 <= name.len() {
        return None;
    }
    if are_register_bytes(name) {
        Some(name)
    } else {
        None
    }
}

fn are_register_bytes(bytes: &[u8]) -> bool
    ensures { result ≡ list_all values.is_register_byte bytes.now }
{
    bytes.iter().all(|byte| is_register_byte(*byte))
}

fn is_register_byte(byte: u8) -> bool
    ensures { result ≡ values.is_register_byte byte }
{
    (b'a' <= byte && byte <= b'z') || (b'0' <= byte && byte <= b'9') || byte == b'_'
}

/// Whether a word names a body.
pub fn is_body_name(word: &[u8]) -> bool
    ensures { result ≡ values.is_body_name word.now }
{
    if word.is_empty() || 20 <= word.len() {
        return false;
    }
    are_name_bytes(word)
}

fn are_name_bytes(bytes: &[u8]) -> bool
    ensures { result ≡ list_all values.is_name_byte bytes.now }
{
    bytes.iter().all(|byte| is_name_byte(*byte))
}

fn is_name_byte(byte: u8) -> bool
    ensures { result ≡ values.is_name_byte byte }
{
    (b'a' <= byte && byte <= b'z')
        || (b'A' <= byte && byte <= b'Z')
        || (b'0' <= byte && byte <= b'9')
        || byte == b'_'
}

/// The status that a word names.
fn status_named(word: &[u8]) -> Option<Status>
    ensures { result ≡ values.status_named word.now }
{
    status_among(&STATUSES, word)
}

fn status_among(statuses: &[Status], word: &[u8]) -> Option<Status>
    ensures { result ≡ find (λ s. bytes_eq (status_name s) word.now) statuses.now }
{
    for status in statuses {
        if status.name().as_bytes() == word {
            return Some(*status);
        }
    }
    None
}

/// A decimal number of 32 bits, which may have a minus sign.
fn signed_of(word: &[u8]) -> Option<i32>
    ensures { result ≡ values.signed_of word.now }
{
    let (first, rest) = word.split_first()?;
    if *first == b'-' {
        Some(negated(digits_of(10, 2147483648, rest)?) as i32)
    } else {
        Some(digits_of(10, 2147483647, word)? as i32)
    }
}

/// Zero or less.
pub fn negated(number: u64) -> i64
    requires { number ≤ 2 ^ 32 }
    ensures { result ≡ values.negated number }
{
    -(number as i64)
}

/// The code that a word stands for: a status name, or a decimal number.
pub fn code_of(word: &[u8]) -> Option<i32>
    ensures { result ≡ values.code_of word.now }
{
    match status_named(word) {
        Some(status) => Some(status.number()),
        None => signed_of(word),
    }
}
