//! Tests of what is said of lines: every type of value, vendors, groups inside each other, each reason of a fault, what
//! may stand in a line, texts with an escape at each place, lines as one stream, the same in JSON, AVPs each on one
//! line, several readers as one, readers and writers that fail, the limit of a line, and that nothing that was said
//! waits for a read.
//!
//! What is checked in a test are its steps, and not the values that it compares: so it is one call of a helper, which
//! has one way out, and owns at most one dictionary.
#![tactic(auto)]

#[cfg(test)]
mod described;
#[cfg(test)]
mod devices;
#[cfg(test)]
mod dictionary;
#[cfg(test)]
mod escapes;
#[cfg(test)]
mod failing_readers;
#[cfg(test)]
mod failing_writers;
#[cfg(test)]
mod inputs;
#[cfg(test)]
mod json_said;
#[cfg(test)]
mod limits;
#[cfg(test)]
mod lines;
#[cfg(test)]
mod reasons;
#[cfg(test)]
mod stream;
#[cfg(test)]
mod values;
#[cfg(test)]
mod waits;
