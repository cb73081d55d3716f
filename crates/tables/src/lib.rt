// The stream table and its descriptors: rules 4 and 5.
#![tactic(auto)]

pub mod forms;
pub mod spare;
pub mod table;
