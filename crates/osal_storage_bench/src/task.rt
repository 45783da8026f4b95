//! What is done, and on what.

/// Where the bytes lie.
#[derive(Clone, Copy)]
pub(crate) enum Store {
    Volume,
    Vector,
}

/// What is done with a file in a round.
#[derive(Clone, Copy)]
pub(crate) enum Deed {
    /// It is emptied, and written in pieces.
    Write,
    /// It is read in pieces.
    Read,
    /// It is copied over another one of its length.
    Copy,
}

/// A deed, the bytes of a piece, and the number of rounds.
#[derive(Clone, Copy)]
pub(crate) struct Task {
    pub(crate) store: Store,
    pub(crate) deed: Deed,
    pub(crate) piece: u32,
    pub(crate) rounds: u32,
}

impl Deed {
    /// The bytes of the file: a volume holds two of those that are copied.
    pub(crate) fn size(self) -> u32 {
        match self {
            Deed::Write | Deed::Read => 2_097_152,
            Deed::Copy => 1_048_576,
        }
    }
}

/// The task that four words give: `volume` or `vec`; `write`, `read` or `copy`; the bytes of a piece; the rounds.
pub(crate) fn task_of(words: &[String]) -> Option<Task> {
    match words {
        [store, deed, piece, rounds] => Some(Task {
            store: store_of(store.as_str())?,
            deed: deed_of(deed.as_str())?,
            piece: piece.as_str().parse::<u32>().ok()?,
            rounds: rounds.as_str().parse::<u32>().ok()?,
        }),
        _ => None,
    }
}

fn store_of(word: &str) -> Option<Store> {
    match word {
        "volume" => Some(Store::Volume),
        "vec" => Some(Store::Vector),
        _ => None,
    }
}

fn deed_of(word: &str) -> Option<Deed> {
    match word {
        "write" => Some(Deed::Write),
        "read" => Some(Deed::Read),
        "copy" => Some(Deed::Copy),
        _ => None,
    }
}
