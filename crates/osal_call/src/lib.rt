//! The calls of the machine, what says each, the entries that they make, and the journal of all entries.
#![tactic(auto)]

mod argument;
mod call;
mod firing;
mod journal;
mod spelled;
mod word;

pub use argument::{Argument, Arguments};
pub use call::{Call, Entry, part_of, part_of_id};
pub use firing::{FIRING_LENGTH, TIMER_LIMIT, append_firing, handler_at};
pub use journal::Journal;
pub use spelled::spelling_of;
pub use word::{
    BareWord, CallWord, NameWord, NumberWord, ObjectWord, PathWord, PathsWord, ValueWord, WaitWord,
    call_word,
};
