// The header: its fixed values and the shape that it gives the card; rules 1 to 3.
#![tactic(auto)]

pub mod fixed;
pub mod header;
