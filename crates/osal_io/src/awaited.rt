//! What the waits of the io part are for.
ghost use Rattle.std.specs.Prelude.{◌≡◌};

use osal_base::{Mode, OsalId};
use osal_select::FdSet;

/// What a call waits for: what it tries again at the end of its wait.
#[derive(Debug, Drop)]
pub enum Awaited {
    /// At most `n` bytes of a connection.
    Read { id: OsalId, n: u32 },
    /// A connection at a socket that listens.
    Accept { id: OsalId },
    /// A datagram, of which at most `n` bytes are taken.
    Receive { id: OsalId, n: u32 },
    /// One stream that is ready.
    One { id: OsalId, mode: Mode },
    /// Streams of two sets, of which one is ready.
    Multi { reads: FdSet, writes: FdSet },
}

impl Awaited {
    /// The same again. It takes no memory.
    pub(crate) fn copied(&self) -> Awaited
        ensures { result ≡ self.now }
    {
        match self {
            Awaited::Read { id, n } => Awaited::Read { id: *id, n: *n },
            Awaited::Accept { id } => Awaited::Accept { id: *id },
            Awaited::Receive { id, n } => Awaited::Receive { id: *id, n: *n },
            Awaited::One { id, mode } => Awaited::One {
                id: *id,
                mode: *mode,
            },
            Awaited::Multi { reads, writes } => Awaited::Multi {
                reads: reads.copied(),
                writes: writes.copied(),
            },
        }
    }
}
