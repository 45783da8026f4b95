//! Tests of the words and of the object layer.
#![tactic(auto)]

#[cfg(test)]
mod objects;
#[cfg(test)]
mod outside;
#[cfg(test)]
mod table;
#[cfg(test)]
mod words;
