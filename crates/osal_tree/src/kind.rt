//! What stands at a path, and why a call on a tree is refused.

/// What stands at a path.
#[derive(Clone, Copy, Debug, PartialEq, Eq)]
pub enum Kind {
    /// Other nodes may lie below it.
    Directory,
    /// A file, with the number that its bytes are kept under.
    File(u8),
}

/// Why a call on a tree was refused.
#[derive(Clone, Copy, Debug, PartialEq, Eq)]
pub enum TreeFault {
    /// Nothing stands at the path, or what should be its directory is none.
    NotFound,
    /// A file stands where a directory is wanted, or the other way round, or the root cannot be meant.
    WrongKind,
    /// There are 256 nodes.
    NoSpace,
    /// Something stands at the path already.
    Exists,
    /// Something lies below the directory.
    NotEmpty,
    /// There was no memory for the answer.
    OutOfMemory,
}
