//! The words that every layer of the abstraction layer shares: statuses, identifiers, names, bytes,
//! replies and limits.
#![tactic(auto)]

mod arguments;
mod bytes;
mod id;
mod limits;
mod name;
mod reply;
mod room;
mod status;
mod time;

pub use arguments::{Access, How, Mode, OpenFlags, SockKind, Whence};
pub use bytes::Bytes;
pub use id::{ObjType, OsalId};
pub use limits::Limits;
pub use name::{Name, NameFault};
pub use reply::{Ack, Answer, OutOfMemory, Reply};
pub use room::Room;
pub use status::Status;
pub use time::{Moment, Timeout};
