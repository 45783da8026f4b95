//! Tests that cross crates: whole runs through the top call, over a shelf and a sink in memory.
#![tactic(auto)]

#[cfg(test)]
mod faults;
#[cfg(test)]
mod fixture;
#[cfg(test)]
mod flight;
#[cfg(test)]
mod journals;
#[cfg(test)]
mod meeting;
#[cfg(test)]
mod segments;
#[cfg(test)]
mod words;
