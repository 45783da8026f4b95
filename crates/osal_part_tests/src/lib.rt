//! Tests of the parts, call by call.
#![tactic(auto)]

#[cfg(test)]
mod tests;
