//! How each argument of a call is spelled.
ghost use Rattle.std.specs.Prelude.{◌≡◌, ◌++◌, map, OnOk};
ghost use Rattle.osal_journal.specs.Spelled.{wait_text as text_of_wait, flags_text as text_of_flags, access_text as text_of_access, whence_text as text_of_whence, kind_text as text_of_kind, ways_text as text_of_ways, ready_text as text_of_ready, streams_text, more_streams_text, argument_text, arguments_text};
ghost use Rattle.osal_call.specs.Shapes.{meant};

use osal_base::{Access, How, Mode, OpenFlags, OutOfMemory, SockKind, Timeout, Whence};
use osal_call::Argument;
use osal_spelling::{push_bytes, push_decimal, push_id, push_quoted, push_signed};

/// Appends how long a call may wait: `check`, `pend`, or the milliseconds.
///
/// A wait of 0 milliseconds is a check, and is spelled as one.
pub fn push_wait(out: &mut Vec<u8>, wait: Timeout) -> Result<(), OutOfMemory>
    ensures { OnOk result (out.new.items ≡ out.old.items ++ text_of_wait wait) }
{
    match wait {
        Timeout::Check | Timeout::Ms(0) => push_bytes(out, b"check"),
        Timeout::Pend => push_bytes(out, b"pend"),
        Timeout::Ms(ms) => push_decimal(out, u64::from(ms)),
    }
}

/// The word for what an opening does to the file.
pub fn flags_text(flags: OpenFlags) -> &'static [u8]
    ensures { result.now ≡ text_of_flags flags }
{
    match flags {
        OpenFlags::Neither => b"none",
        OpenFlags::Create => b"create",
        OpenFlags::Truncate => b"truncate",
        OpenFlags::Both => b"both",
    }
}

/// The word for what a file is opened for.
pub fn access_text(access: Access) -> &'static [u8]
    ensures { result.now ≡ text_of_access access }
{
    match access {
        Access::Ro => b"ro",
        Access::Wo => b"wo",
        Access::Rw => b"rw",
    }
}

/// The word for the place from which a seek counts.
pub fn whence_text(whence: Whence) -> &'static [u8]
    ensures { result.now ≡ text_of_whence whence }
{
    match whence {
        Whence::Set => b"set",
        Whence::Cur => b"cur",
        Whence::End => b"end",
    }
}

/// The word for what a socket carries.
pub fn kind_text(kind: SockKind) -> &'static [u8]
    ensures { result.now ≡ text_of_kind kind }
{
    match kind {
        SockKind::Stream => b"stream",
        SockKind::Dgram => b"dgram",
    }
}

/// The word for the ways that are shut down.
pub fn how_text(how: How) -> &'static [u8]
    ensures { result.now ≡ text_of_ways how }
{
    match how {
        How::Read => b"read",
        How::Write => b"write",
        How::Both => b"both",
    }
}

/// The word for what a select waits for.
pub fn mode_text(mode: Mode) -> &'static [u8]
    ensures { result.now ≡ text_of_ready mode }
{
    match mode {
        Mode::R => b"r",
        Mode::W => b"w",
        Mode::Rw => b"rw",
    }
}

fn push_more_streams(out: &mut Vec<u8>, ids: &[u32]) -> Result<(), OutOfMemory>
    ensures { OnOk result (out.new.items ≡ out.old.items ++ more_streams_text ids.now) }
{
    for id in ids {
        push_bytes(out, b",")?;
        push_id(out, u64::from(*id))?;
    }
    Ok(())
}

fn push_streams(out: &mut Vec<u8>, ids: &[u32]) -> Result<(), OutOfMemory>
    ensures { OnOk result (out.new.items ≡ out.old.items ++ streams_text ids.now) }
{
    match ids.split_first() {
        None => push_bytes(out, b"-"),
        Some((id, others)) => {
            push_id(out, u64::from(*id))?;
            push_more_streams(out, others)
        }
    }
}

fn push_argument(out: &mut Vec<u8>, argument: &Argument) -> Result<(), OutOfMemory>
    ensures { OnOk result (out.new.items ≡ out.old.items ++ argument_text (meant argument.now)) }
{
    match argument {
        Argument::Text(text) => push_quoted(out, text.as_slice()),
        Argument::Id(id) => push_id(out, u64::from(id.raw())),
        Argument::Number(number) => push_decimal(out, *number),
        Argument::Offset(offset) => push_signed(out, *offset),
        Argument::Wait(wait) => push_wait(out, *wait),
        Argument::Flags(flags) => push_bytes(out, flags_text(*flags)),
        Argument::Access(access) => push_bytes(out, access_text(*access)),
        Argument::Whence(whence) => push_bytes(out, whence_text(*whence)),
        Argument::Kind(kind) => push_bytes(out, kind_text(*kind)),
        Argument::How(how) => push_bytes(out, how_text(*how)),
        Argument::Mode(mode) => push_bytes(out, mode_text(*mode)),
        Argument::Streams(set) => push_streams(out, set.set().as_slice()),
    }
}

/// Appends some arguments, each behind a space.
pub(crate) fn push_arguments(out: &mut Vec<u8>, arguments: &[Argument]) -> Result<(), OutOfMemory>
    ensures { OnOk result (out.new.items ≡ out.old.items ++ arguments_text (map meant arguments.now)) }
{
    for argument in arguments {
        push_bytes(out, b" ")?;
        push_argument(out, argument)?;
    }
    Ok(())
}
