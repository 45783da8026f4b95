//! What bodies are made of.
use osal_line::Line;

/// What a body is made of, in the order of its lines.
///
/// A repeat goes on to its end. It may be empty, or have none but empty repeats in it: it stands for no call line
/// then, and a walk along the lines passes it at once.
#[derive(Drop)]
pub enum Item {
    /// A call line.
    Call(Line),
    /// The items up to its end, so many times.
    Repeat { count: u32 },
    /// The end of the last repeat that is open.
    End,
}
