// Blocks: places and slots, the free chain, the reader, and growth.
// Every function works on any bytes; what it asks for are numbers that fit. A card and its Cut stay two parameters: a card is
// lent for reading here and for writing there, so it would be two structs, and each function that writes would promise two facts
// more, that the shape and the loan stay (tried: the clauses got longer, and each was reworded). A shared slice is lent on as `&*card`: passed on
// as it is, its pointer and length would have to stand in memory, and each call would copy them there.
#![tactic(auto)]

pub mod chain;
pub mod cut;
pub mod growth;
pub mod places;
pub mod reader;
