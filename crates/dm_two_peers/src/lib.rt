//! Two peers and the links between them: what any list of happenings leaves true, whatever the messages say.
#![tactic(auto)]

pub mod laws;
