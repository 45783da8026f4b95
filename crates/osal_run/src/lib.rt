//! The runner: from the words of a command line to an exit status.
#![tactic(auto)]

mod exit;
mod load;
mod refusal;
mod request;
mod runner;

pub use exit::Exit;
pub use refusal::Refusal;
pub use runner::run;
