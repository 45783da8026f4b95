//! What comes next in a script.

/// What comes next in a script.
#[derive(Clone, Copy, Debug, PartialEq, Eq)]
pub enum Phase {
    /// The checkpoint before a line or before the exit.
    Before,
    /// The line, or the exit after the last line.
    At,
    /// The end of the line's wait in that part.
    Waiting { part: u32 },
    /// The wait in that part is given up, since the task was deleted meanwhile.
    Leaving { part: u32 },
    /// Nothing: the script has ended.
    Ended,
}
