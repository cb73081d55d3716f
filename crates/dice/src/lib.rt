// The dice that the programs `cases` and `runs` roll, and the arithmetic of their cards, as docs/CASES.md describes both.
#![tactic(auto)]

pub mod rolls;
pub mod sums;

pub use rolls::Dice;

// Every roll and every sum is below this number, 2^31 - 1.
pub const MODULUS: usize = 2147483647;

// What a state is multiplied by.
pub const FACTOR: usize = 48271;
