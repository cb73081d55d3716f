// The blocks in use and those of the free chain: rules 6 and 7.
#![tactic(auto)]

pub mod free;
pub mod used;
