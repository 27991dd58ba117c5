//! Tests of SCTP associations by their ends.
#![tactic(auto)]

#[cfg(test)]
mod packets;
#[cfg(test)]
mod rows;
#[cfg(test)]
mod single_calls;
#[cfg(test)]
mod told;
