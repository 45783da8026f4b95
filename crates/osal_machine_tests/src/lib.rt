//! Tests of the machine, call by call.
#![tactic(auto)]

#[cfg(test)]
mod machine;
