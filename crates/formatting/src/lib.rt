// A new card, on a shape: what format does once nothing refuses it.
#![tactic(auto)]

pub mod format;
