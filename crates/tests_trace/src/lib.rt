//! Tests of when, between whom and in which packet a message was seen, as text and in JSON.
#![tactic(auto)]

#[cfg(test)]
mod elapsed;
#[cfg(test)]
mod ends;
#[cfg(test)]
mod instants;
#[cfg(test)]
mod seen;
#[cfg(test)]
mod told;
