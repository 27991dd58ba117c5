//! Two nodes of many neighbours each: what their numbers of connections don't matter to, and how a neighbour of the one
//! and a neighbour of the other agree, whatever happens to the rest.
#![tactic(auto)]

pub mod laws;
