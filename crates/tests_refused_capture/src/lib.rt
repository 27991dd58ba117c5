//! Tests of what reads captures with one request for memory refused at a time: the call answers want of memory, nothing
//! has changed, and the call done again answers as its row.
//!
//! `rt ci` proves them and runs them with memory at hand, so that a call that gives up is refused there.
//! `tools/refused` runs the same tests with `tools/refuse.c`, which refuses.
#![tactic(auto)]

#[cfg(test)]
mod associations;
#[cfg(test)]
mod captures;
#[cfg(test)]
mod connections;
#[cfg(test)]
mod each;
#[cfg(test)]
mod fronts;
