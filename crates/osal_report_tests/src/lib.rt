//! Tests of reports.
#![tactic(auto)]

#[cfg(test)]
mod reports;
#[cfg(test)]
mod texts;
