//! Laws of runs, held against what computes: each list of happenings up to a bound is run, and the law is computed of
//! what it leaves, as it stands and as an edit of its definition turns it.
//!
//! The law as it stands holds of each run, and the turned one of some run doesn't: so the prover refuses the edit for
//! what it says, and not for a proof that no longer fits. The bound is the alphabet and the length of the lists.
#![tactic(auto)]

#[cfg(test)]
mod histories;
#[cfg(test)]
mod node;
#[cfg(test)]
mod search;
#[cfg(test)]
mod worlds;
