//! The words that arguments of calls choose from.

/// What an open does to a file beside opening it.
#[derive(Clone, Copy, Debug, PartialEq, Eq)]
pub enum OpenFlags {
    /// The file has to be there, and keeps its bytes (`OS_FILE_FLAG_NONE`).
    Neither,
    /// A file that is missing is made (`OS_FILE_FLAG_CREATE`).
    Create,
    /// The file loses its bytes (`OS_FILE_FLAG_TRUNCATE`).
    Truncate,
    /// A file that is missing is made, and one that is there loses its bytes.
    Both,
}

/// What a stream is opened for.
#[derive(Clone, Copy, Debug, PartialEq, Eq)]
pub enum Access {
    /// To read alone (`OS_READ_ONLY`).
    Ro,
    /// To write alone (`OS_WRITE_ONLY`).
    Wo,
    /// To read and to write (`OS_READ_WRITE`).
    Rw,
}

/// From where a seek counts.
#[derive(Clone, Copy, Debug, PartialEq, Eq)]
pub enum Whence {
    /// From the start of the file (`OS_SEEK_SET`).
    Set,
    /// From the place where the stream is (`OS_SEEK_CUR`).
    Cur,
    /// From the end of the file (`OS_SEEK_END`).
    End,
}

/// What a socket carries.
#[derive(Clone, Copy, Debug, PartialEq, Eq)]
pub enum SockKind {
    /// The bytes of a connection (`OS_SocketType_STREAM`).
    Stream,
    /// Datagrams (`OS_SocketType_DATAGRAM`).
    Dgram,
}

/// Which ways of a connection are shut down.
#[derive(Clone, Copy, Debug, PartialEq, Eq)]
pub enum How {
    /// Nothing more is read (`OS_SocketShutdownMode_SHUT_READ`).
    Read,
    /// Nothing more is written (`OS_SocketShutdownMode_SHUT_WRITE`).
    Write,
    /// Both (`OS_SocketShutdownMode_SHUT_READWRITE`).
    Both,
}

/// What a select waits for.
#[derive(Clone, Copy, Debug, PartialEq, Eq)]
pub enum Mode {
    /// A stream that can be read (`OS_STREAM_STATE_READABLE`).
    R,
    /// A stream that can be written (`OS_STREAM_STATE_WRITABLE`).
    W,
    /// Either (both bits).
    Rw,
}
