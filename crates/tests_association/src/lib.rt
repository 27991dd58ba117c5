//! Tests of user messages out of DATA chunks, and of chunks that begin and end associations.
#![tactic(auto)]

#[cfg(test)]
mod flows;
#[cfg(test)]
mod fronts;
#[cfg(test)]
mod limits;
