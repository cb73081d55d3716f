// Streams: descriptors, bytes and numbers inside a stream, and streams made longer and shorter.
#![tactic(auto)]

pub mod descs;
pub mod inside;
pub mod lengths;
