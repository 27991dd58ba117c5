//! Tests of the program: its texts, its commands, devices that fail, and scripts of two peers with their replays.
//!
//! A test ends where memory is short. What is checked in a test are its steps, and not the values that it compares:
//! so it is one call of a helper, which has one way out.
#![tactic(auto)]

#[cfg(test)]
mod digits;
#[cfg(test)]
mod program;
#[cfg(test)]
mod replay;
#[cfg(test)]
mod text;
