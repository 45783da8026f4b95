//! How identifiers, numbers, codes and bytes are spelled in reports and journals.
#![tactic(auto)]

mod spelling;

pub use spelling::{
    hex_digit, push_answer, push_bytes, push_code, push_decimal, push_id, push_quoted, push_signed,
    quote,
};
