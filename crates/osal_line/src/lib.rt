//! Call lines: their words, and what they call.
#![tactic(auto)]

mod arguments;
mod choices;
mod consoles;
mod declarations;
mod expectation;
mod files;
mod grammar;
mod kind;
mod line;
mod literal;
mod made;
mod payload;
mod queues;
mod register;
mod registers;
mod selects;
mod sets;
mod sockets;
mod strings;
mod tasks;
mod timers;
mod transfers;
mod values;
mod vocabulary;
mod words;

pub use declarations::Declarations;
pub use expectation::{Expect, Value, arrow_place, expectation_of};
pub use grammar::{FirstWord, call_of_words};
pub use kind::BodyKind;
pub use line::{Line, ScriptCall, set_register};
pub use literal::Literal;
pub use made::{call_made, part_made};
pub use register::{REGISTER_LIMIT, Register};
pub use registers::Registers;
pub use sets::RegisterSet;
pub use values::{is_body_name, number_of};
pub use vocabulary::first_word;
pub use words::{is_line, next_line, words_of};
