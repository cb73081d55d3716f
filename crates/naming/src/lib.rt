// The root's entries, their names, and the streams that they lead to: rule 8.
#![tactic(auto)]

pub mod apart;
pub mod root;
