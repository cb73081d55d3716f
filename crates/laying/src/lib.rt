// A stream's bytes, by its top and its number of blocks: gathered into a tray, and laid into its blocks.
#![tactic(auto)]

pub mod gather;
pub mod lay;
mod levels;
