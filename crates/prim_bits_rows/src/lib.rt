//! Tests of the primitives on words: tables of values that Python's integers made.
#![tactic(auto)]

#[cfg(test)]
mod tables;
#[cfg(test)]
mod worked;
