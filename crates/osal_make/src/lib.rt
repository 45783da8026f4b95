//! The application that is made for a number of workers, without a file.
#![tactic(auto)]

mod first;
mod line;
mod make;
mod worker;

pub use make::{WORKER_LIMIT, make_app};
