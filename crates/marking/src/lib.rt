// Marks as a set of blocks: a pyramid's blocks marked, and marked blocks given back in falling order. Every function works on any
// bytes; what it asks for are numbers that fit.
#![tactic(auto)]

pub mod marks;
