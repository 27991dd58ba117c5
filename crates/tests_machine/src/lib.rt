//! Tests of the state table.
//!
//! A test ends where memory is short. What is checked in a test are its steps, and not the values that it compares: so
//! it is one call of a helper over a table.
#![tactic(auto)]

#[cfg(test)]
mod machine;
