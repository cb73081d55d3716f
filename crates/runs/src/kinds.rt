// What the kinds of runs are (R5).
ghost use Rattle.std.specs.Prelude.{◌≤◌};

use dice::Dice;
use dice::sums::{block_bytes, times};

// The bytes before a card's blocks, and the most blocks that it has.
pub const HEAD: usize = 87;

pub const MOST_BLOCKS: usize = 4096;

// The bytes of a large card's blocks, where it may have as many.
const LARGE: usize = 1048576;

// In the order of their numbers.
#[derive(Clone, Copy, PartialEq, Eq)]
pub enum Kind {
    Tiny,
    Common,
    Edge,
    Tall,
    Crowd,
    Large,
    Scrambled,
}

impl Kind {
    pub const ALL: [Kind; 7] = [
        Kind::Tiny,
        Kind::Common,
        Kind::Edge,
        Kind::Tall,
        Kind::Crowd,
        Kind::Large,
        Kind::Scrambled,
    ];

    // How many runs it has.
    pub fn runs(self) -> usize
        ensures { result ≤ 42 }
    {
        match self {
            Kind::Tiny | Kind::Common | Kind::Edge => 42,
            Kind::Tall => 8,
            Kind::Crowd => 4,
            Kind::Large => 7,
            Kind::Scrambled => 9,
        }
    }

    // The shift of its run `i`.
    fn shift(self, i: usize) -> usize
        ensures { (6 ≤ result) × (result ≤ 12) }
    {
        match self {
            Kind::Tall => 6,
            Kind::Crowd | Kind::Scrambled => 6 + i % 3,
            _ => 6 + i % 7,
        }
    }

    // How many blocks of `z` bytes a card has.
    fn blocks(self, dice: &mut Dice, z: usize) -> usize
        requires { 1 ≤ z }
        ensures { result ≤ 4096 }
    {
        match self {
            Kind::Tiny => 1 + dice.below(8),
            Kind::Common => 12 + dice.below(20),
            Kind::Edge => 6 + dice.below(30),
            Kind::Tall => 400 + dice.below(300),
            Kind::Crowd => 290 + dice.below(20),
            Kind::Large => dice.below(1) + (LARGE / z).min(MOST_BLOCKS),
            Kind::Scrambled => 90 + dice.below(60),
        }
    }

    // How many names are created at first.
    pub fn made(self) -> usize
        ensures { result ≤ 255 }
    {
        match self {
            Kind::Tiny => 0,
            Kind::Common => 3,
            Kind::Edge => 4,
            Kind::Tall | Kind::Large => 2,
            Kind::Crowd => 255,
            Kind::Scrambled => 30,
        }
    }

    // How many names are drawn from.
    pub fn pool(self) -> usize
        ensures { result ≤ 510 }
    {
        match self {
            Kind::Common => 6,
            Kind::Edge => 5,
            Kind::Crowd => 510,
            Kind::Scrambled => 8,
            _ => 3,
        }
    }

    pub fn steps(self) -> usize {
        match self {
            Kind::Tiny | Kind::Tall => 40,
            Kind::Common | Kind::Edge | Kind::Scrambled => 60,
            Kind::Crowd => 120,
            Kind::Large => 12,
        }
    }

    // How many bytes a write has at most; at the edge that goes by what is free.
    pub fn longest(self, z: usize) -> usize
        requires { z ≤ 4096 }
        ensures { result ≤ 130000 }
    {
        match self {
            Kind::Tiny => 3 * z,
            Kind::Common => 4 * z,
            Kind::Tall => 22000,
            Kind::Crowd => z,
            Kind::Scrambled => 12 * z,
            _ => 130000,
        }
    }
}

// A run: its kind, and the card that it is made on.
#[derive(Clone, Copy)]
pub struct Run {
    pub kind: Kind,
    pub shift: usize,
    pub len: usize,
    ghost in_range: { (6 ≤ shift) × (shift ≤ 12) },
}

impl Run {
    // Run `i` of a kind; its blocks are drawn.
    pub fn drawn(dice: &mut Dice, kind: Kind, i: usize) -> Run {
        let shift = kind.shift(i);
        let z = block_bytes(shift);
        let blocks = kind.blocks(dice, z);
        Run {
            kind,
            shift,
            len: HEAD + times(blocks, z),
        }
    }

    // The bytes of its blocks.
    pub fn block(self) -> usize
        ensures { (64 ≤ result) × (result ≤ 4096) }
    {
        block_bytes(self.shift)
    }
}
