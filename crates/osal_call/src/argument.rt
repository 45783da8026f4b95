//! The arguments of calls.

use osal_base::{Access, Bytes, How, Mode, OpenFlags, OsalId, SockKind, Timeout, Whence};
use osal_select::BoxedSet;

/// An argument of a call.
#[derive(Clone, Copy)]
pub enum Argument<'a> {
    Text(&'a Bytes),
    Id(OsalId),
    Number(u64),
    Offset(i64),
    Wait(Timeout),
    Flags(OpenFlags),
    Access(Access),
    Whence(Whence),
    Kind(SockKind),
    How(How),
    Mode(Mode),
    Streams(&'a BoxedSet),
}

/// The arguments of a call, in their order: four at most.
#[derive(Clone, Copy)]
pub enum Arguments<'a> {
    None,
    One(Argument<'a>),
    Two(Argument<'a>, Argument<'a>),
    Three(Argument<'a>, Argument<'a>, Argument<'a>),
    Four(Argument<'a>, Argument<'a>, Argument<'a>, Argument<'a>),
}
