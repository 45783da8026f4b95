//! Guesses at the turns of open waits.
use osal_base::OsalId;

/// How many guesses there are.
const SLOTS: u32 = 64;

/// A guess at the turn of each task's open wait, by the slot of the task, so that a look for a wait need not walk.
///
/// It is right where only older waits have ended since. Where it is wrong, the look takes longer, and finds the same.
#[derive(Debug, Drop)]
pub(crate) struct Guesses {
    /// The turn at which the last wait of a slot began, and how many waits had ended by then.
    begun: [usize; 64],
    /// How many waits have ended.
    ended: usize,
}

impl Guesses {
    /// For no waits.
    pub(crate) fn none() -> Guesses {
        Guesses {
            begun: [0; 64],
            ended: 0,
        }
    }

    /// The turn that the wait of a task has, or another one.
    pub(crate) fn turn_of(&self, task: OsalId) -> usize {
        let begun = self.begun[task.index(SLOTS) as usize];
        begun.wrapping_sub(self.ended)
    }

    /// A task begins a wait, which has that turn.
    pub(crate) fn begin(&mut self, task: OsalId, turn: usize) {
        self.begun[task.index(SLOTS) as usize] = self.ended.wrapping_add(turn);
    }

    /// A wait ends.
    pub(crate) fn end(&mut self) {
        self.ended = self.ended.wrapping_add(1);
    }
}
