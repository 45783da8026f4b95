//! What runs a body.

/// What runs a body.
#[derive(Clone, Copy, Debug, PartialEq, Eq)]
pub enum BodyKind {
    /// A task.
    Task,
    /// A timer, each time that it fires in a tick.
    Handler,
}
