//! Tables that name objects by identifiers, which go stale when their object is removed.
#![tactic(auto)]

mod faults;
pub mod laws;
mod place;
mod slot;
mod slots;
mod table;
mod token;

pub use faults::{status_of_id, status_of_name, status_of_reserve};
pub use table::{IdFault, ReserveFault, Table};
pub use token::Token;
