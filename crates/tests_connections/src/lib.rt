//! Tests of connections by their ends.
#![tactic(auto)]

#[cfg(test)]
mod messages;
#[cfg(test)]
mod segments;
#[cfg(test)]
mod single_calls;
#[cfg(test)]
mod told;
