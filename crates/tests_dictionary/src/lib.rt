//! Tests of dictionaries: what they say of messages.
//!
//! A test ends where memory is short. What is checked in a test are its steps, and not the values that it compares:
//! so it is one call of a helper, which has one way out, and owns at most one dictionary.
#![tactic(auto)]

#[cfg(test)]
mod dictionary;
