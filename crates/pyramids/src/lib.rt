// The numbers of a pyramid: levels, height, P, and where the next data block goes. No byte of a card is read.
#![tactic(auto)]

pub mod pyramid;
