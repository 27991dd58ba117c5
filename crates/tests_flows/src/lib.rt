//! Tests of packets: the segments in them, or what they are instead; and of octets by number.
#![tactic(auto)]

#[cfg(test)]
mod connection;
#[cfg(test)]
mod flow;
#[cfg(test)]
mod headers;
#[cfg(test)]
mod messages;
#[cfg(test)]
mod sctp;
#[cfg(test)]
mod sctp_told;
#[cfg(test)]
mod segments;
#[cfg(test)]
mod told;
#[cfg(test)]
mod windows;
