//! Tests of peers, worlds and scripts with one request for memory refused at a time: the call answers want of memory,
//! nothing has changed, and the call done again answers as its row.
//!
//! `rt ci` proves them and runs them with memory at hand, so that a call that gives up is refused there.
//! `tools/refused` runs the same tests with `tools/refuse.c`, which refuses.
#![tactic(auto)]

#[cfg(test)]
mod each;
#[cfg(test)]
mod neighbours;
#[cfg(test)]
mod nodes;
#[cfg(test)]
mod peers;
#[cfg(test)]
mod quiet;
#[cfg(test)]
mod rows;
#[cfg(test)]
mod runs;
#[cfg(test)]
mod scripts;
#[cfg(test)]
mod unknown;
#[cfg(test)]
mod words;
#[cfg(test)]
mod worlds;
