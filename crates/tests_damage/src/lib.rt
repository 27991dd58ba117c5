//! Tests of octets and texts that are cut or changed anywhere, and of devices that give and take little or fail.
#![tactic(auto)]

#[cfg(test)]
mod changed;
#[cfg(test)]
mod cut;
#[cfg(test)]
mod devices;
#[cfg(test)]
mod texts;
