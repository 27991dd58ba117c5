//! Two peers over octets, as the laws of two peers see them: they move as the state machine, one of them wins, and each
//! reads what the other sends.
#![tactic(auto)]

pub mod laws;
