// The dice (G1), and what their rolls make: an order and noise.
ghost use Rattle.std.specs.Prelude.{◌≡◌, ◌<◌, ◌%◌, ℕ, length, IsPermutation};
ghost use Rattle.dice.specs.Rolls.{noise_of, rolled, rolled_times, shuffled};
ghost use Rattle.dice.specs.Sums.{rest_of};
ghost use Rattle.dice.specs.declared.TheConstants.{MODULUS};

use crate::sums::rest;
use crate::{FACTOR, MODULUS};
use std::marker::Model;

// Dice are known by their state, the number that they rolled last.
#[derive(Drop)]
pub struct Dice {
    state: usize,
}

impl Model for Dice {
    ghost Value = { ℕ };

    ghost view = { λ d. d.state };

    ghost invariant = { λ d. d.state < MODULUS };
}

impl Dice {
    // Dice that no one has rolled.
    pub fn new(seed: usize) -> Dice
        ensures { result ≡ seed % MODULUS }
    {
        Dice {
            state: seed % MODULUS,
        }
    }

    // Dice whose first three rolls are thrown away.
    pub fn started(seed: usize) -> Dice
        ensures { result ≡ rolled_times 3 (seed % MODULUS) }
    {
        let mut dice = Dice::new(seed);
        dice.roll();
        dice.roll();
        dice.roll();
        dice
    }

    // The next number.
    pub fn roll(&mut self) -> usize
        ensures number { result ≡ rolled self.old }
        ensures state { self.new ≡ rolled self.old }
        ensures bound { result < MODULUS }
    {
        self.state = self.state * FACTOR % MODULUS;
        self.state
    }

    // A number below `n`; 0 where `n` is 0.
    pub fn below(&mut self, n: usize) -> usize
        ensures number { result ≡ rest_of (rolled self.old) n }
        ensures state { self.new ≡ rolled self.old }
        ensures bound { result < MODULUS }
        ensures within { 0 < n → result < n }
    {
        rest(self.roll(), n)
    }

    // Noise in all bytes, the last of them first.
    pub fn noise(&mut self, bytes: &mut [u8])
        ensures noise { bytes.new ≡ noise_of (length bytes.old) self.old }
        ensures state { self.new ≡ rolled_times (length bytes.old) self.old }
    {
        for i in (0..bytes.len()).rev() {
            bytes[i] = (self.roll() % 256) as u8;
        }
    }

    // The items in another order.
    pub fn shuffle<T>(&mut self, items: &mut [T])
        ensures order { items.new ≡ shuffled (length items.old) self.old items.old }
        ensures permutation { IsPermutation items.old items.new }
        ensures state { self.new ≡ rolled_times (length items.old) self.old }
    {
        for i in (0..items.len()).rev() {
            let other = self.below(i + 1);
            items.swap(i, other);
        }
    }
}
