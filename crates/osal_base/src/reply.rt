//! What a call answers.
ghost use Rattle.std.specs.Prelude.{◌≡◌, []};
ghost use Rattle.osal_base.specs.Reply.{Replied, replied, refusal, gives, success, waits, goes_on, deleted};

use crate::{Bytes, Status};
use std::alloc::{AllocError, AllocFailed};

/// The answer of a call.
#[derive(Clone, Copy, Debug, PartialEq, Eq)]
pub enum Answer {
    /// A status code, or a count where the call gives one.
    Code(i32),
    /// The call has to wait; `wait_end` gives its answer.
    Waits,
    /// The task goes on.
    Go,
    /// The task was deleted.
    Deleted,
}

/// The answer of a call and its number; its bytes are in the room that the call was lent.
#[derive(Clone, Copy, Debug, PartialEq, Eq)]
pub struct Ack {
    pub answer: Answer,
    pub number: u64,
}

impl Ack {
    /// The call was refused, with this cause.
    pub fn refused(status: Status) -> Ack
        ensures { replied result [] ≡ refusal status }
    {
        Ack {
            answer: Answer::Code(status.number()),
            number: 0,
        }
    }

    /// The call succeeded.
    pub const fn success() -> Ack
        ensures { replied result [] ≡ success }
    {
        Ack {
            answer: Answer::Code(0),
            number: 0,
        }
    }

    /// The call succeeded and gives this number.
    pub const fn gives(number: u64) -> Ack
        ensures { replied result [] ≡ gives number }
    {
        Ack {
            answer: Answer::Code(0),
            number,
        }
    }

    /// The call has to wait; `wait_end` gives its answer.
    pub const fn waits() -> Ack
        ensures { replied result [] ≡ waits }
    {
        Ack {
            answer: Answer::Waits,
            number: 0,
        }
    }

    /// The task goes on.
    pub const fn goes_on() -> Ack
        ensures { replied result [] ≡ goes_on }
    {
        Ack {
            answer: Answer::Go,
            number: 0,
        }
    }

    /// The task was deleted.
    pub const fn deleted() -> Ack
        ensures { replied result [] ≡ deleted }
    {
        Ack {
            answer: Answer::Deleted,
            number: 0,
        }
    }
}

/// A whole reply.
#[derive(Debug, Drop)]
pub struct Reply {
    pub answer: Answer,
    pub number: u64,
    pub bytes: Bytes,
}

/// There was no memory for what the call needs.
#[derive(Clone, Copy, Debug, PartialEq, Eq)]
pub struct OutOfMemory;

impl From<AllocError> for OutOfMemory {
    fn from(_: AllocError) -> OutOfMemory {
        OutOfMemory
    }
}

impl<T: Drop> From<AllocFailed<T>> for OutOfMemory {
    fn from(_: AllocFailed<T>) -> OutOfMemory {
        OutOfMemory
    }
}
