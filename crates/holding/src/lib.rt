// One stream's bytes, by its index: read, written and cut, and the blocks that they want. Every function works on any bytes; what
// it asks for are numbers that fit.
#![tactic(auto)]

pub mod read;
pub mod room;
pub mod write;
