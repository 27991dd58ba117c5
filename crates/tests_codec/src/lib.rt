//! Tests of octets and texts: the framer, messages and AVPs, values, the items of a dictionary text.
//!
//! It holds nothing else: a crate with tests is proved twice, so that all tests stand in crates of their own, above
//! what they try. They try what no clause says: values from outside, printed text, and that calls succeed with memory
//! at hand.
#![tactic(auto)]

#[cfg(test)]
mod framer;
#[cfg(test)]
mod grammar;
#[cfg(test)]
mod value;
#[cfg(test)]
mod wire;
