//! The text of a journal: a line for each entry, with the call, its arguments and its reply.
//!
//! The words for an argument are those of a call line too.
#![tactic(auto)]

mod argument;
mod entry;
mod spelled;
mod text;
mod write;

pub use argument::{
    access_text, flags_text, how_text, kind_text, mode_text, push_wait, whence_text,
};
pub use text::journal_text;
pub use write::{WriteFault, write_journal};
