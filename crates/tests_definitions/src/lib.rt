//! Tests of the texts of dictionaries and of what they define, with the base protocol, and of what Debug shows of a
//! dictionary and of its parts.
//!
//! A test ends where memory is short. What is checked in a test are its steps, and not the values that it compares:
//! so it is one call of a helper, which has one way out, and owns at most one dictionary.
#![tactic(auto)]

#[cfg(test)]
mod definitions;
#[cfg(test)]
mod edges;
#[cfg(test)]
mod faults;
#[cfg(test)]
mod second_version;
#[cfg(test)]
mod shown;
#[cfg(test)]
mod shown_whole;
#[cfg(test)]
mod texts;
#[cfg(test)]
mod thresholds;
