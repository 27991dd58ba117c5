//! Tests of what is said of captures: messages as text, in JSON and checked, those of associations of SCTP, what is
//! lost, which connections are looked at and which messages, how times are said, faults of the file, and readers and
//! writers that give and take little, or fail.
#![tactic(auto)]

#[cfg(test)]
mod associations;
#[cfg(test)]
mod choices;
#[cfg(test)]
mod devices;
#[cfg(test)]
mod exchange;
#[cfg(test)]
mod files;
#[cfg(test)]
mod filters;
#[cfg(test)]
mod lost;
#[cfg(test)]
mod packets;
#[cfg(test)]
mod told;
