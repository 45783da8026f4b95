//! The two sides of a connection.

/// Whose end of a connection it is.
#[derive(Clone, Copy, Debug, PartialEq, Eq)]
pub(crate) enum Side {
    /// That of the socket that connected.
    Client,
    /// That of the socket at which it was accepted.
    Server,
}
