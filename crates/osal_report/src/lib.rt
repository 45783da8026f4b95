//! Reports: what a journal says of its application, as text, and its exit status.
#![tactic(auto)]

mod cases;
mod console;
mod counts;
mod draft;
mod drafts;
mod entry;
mod segment;
mod status;
mod summary;

pub use console::console_text;
pub use status::{End, end_of_all, status_of};
pub use summary::{Summary, report, summarize};
