//! Tests of judging against counting: rules of as many entries as are counted in one way and of more, bounds at the
//! ends of the counters' range, codes that share their lowest bits, and rules and requests by chance, counted by hand.
//!
//! A test ends where memory is short. It is one call of a helper, which has one way out, and owns at most one
//! dictionary.
#![tactic(auto)]

#[cfg(test)]
mod by_hand;
#[cfg(test)]
mod late_definitions;
#[cfg(test)]
mod many_bounds;
#[cfg(test)]
mod many_entries;
#[cfg(test)]
mod seated_types;
#[cfg(test)]
mod shared_seats;
#[cfg(test)]
mod told;
#[cfg(test)]
mod unknown_runs;
