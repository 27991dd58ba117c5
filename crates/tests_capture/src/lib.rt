//! Tests of capture files: their packets, and what is wrong with them.
#![tactic(auto)]

#[cfg(test)]
mod captures;
#[cfg(test)]
mod interfaces;
#[cfg(test)]
mod readers;
#[cfg(test)]
mod told;
