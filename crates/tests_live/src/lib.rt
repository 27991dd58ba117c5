//! Tests of nodes: orders in turn, and how many actions each turn asks for; orders in lines.
#![tactic(auto)]

#[cfg(test)]
mod acquaintance;
#[cfg(test)]
mod lines;
#[cfg(test)]
mod node_lines;
#[cfg(test)]
mod nodes;
#[cfg(test)]
mod room;
#[cfg(test)]
mod single;
