//! Tests of printed applications.
#![tactic(auto)]

#[cfg(test)]
mod printed;
