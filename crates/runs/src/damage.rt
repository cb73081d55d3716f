// Damage (R4): a shorter card, or a number added to one byte.
ghost use Rattle.std.specs.Prelude.{◌≤◌};

use crate::kinds::HEAD;

// What is hit, in the order of the damages' numbers.
#[derive(Clone, Copy, PartialEq, Eq)]
pub enum Damage {
    Nothing,
    Length,
    FixedValues,
    WholeBlocks,
    TableDescriptor,
    RootDescriptor,
    RootTop,
    FirstFree,
    FirstEntry,
    AnyByte,
}

impl Damage {
    pub const ALL: [Damage; 10] = [
        Damage::Nothing,
        Damage::Length,
        Damage::FixedValues,
        Damage::WholeBlocks,
        Damage::TableDescriptor,
        Damage::RootDescriptor,
        Damage::RootTop,
        Damage::FirstFree,
        Damage::FirstEntry,
        Damage::AnyByte,
    ];

    // How many places it may take on a card of `len` bytes.
    pub fn span(self, len: usize) -> usize {
        match self {
            Damage::Nothing => 1,
            Damage::Length => HEAD,
            Damage::FixedValues | Damage::TableDescriptor => 25,
            Damage::WholeBlocks => 63,
            Damage::RootDescriptor => 33,
            Damage::RootTop | Damage::FirstFree => 8,
            Damage::FirstEntry => 6,
            Damage::AnyByte => len,
        }
    }

    // What is lent of a card of `len` bytes in blocks of `z`, and which byte changes, `back` places before the last that may.
    pub fn at(self, len: usize, z: usize, back: usize) -> Spoilt
        requires { z ≤ 4096 }
    {
        let last = match self {
            Damage::Nothing => return Spoilt::shorter(len),
            Damage::Length => return Spoilt::shorter((HEAD - 1).saturating_sub(back)),
            Damage::WholeBlocks => {
                return Spoilt::shorter(len.saturating_sub(1).saturating_sub(back));
            }
            Damage::FixedValues => 24,
            Damage::TableDescriptor => 69,
            Damage::RootDescriptor => 119,
            Damage::RootTop => 110,
            Damage::FirstFree => 34,
            Damage::FirstEntry => HEAD + 5 + z,
            Damage::AnyByte => len.saturating_sub(1),
        };
        Spoilt {
            lent: len,
            place: Some(last.saturating_sub(back)),
        }
    }
}

// How much of a card is lent, and which of its bytes changes, if one does.
#[derive(Clone, Copy)]
pub struct Spoilt {
    pub lent: usize,
    pub place: Option<usize>,
}

impl Spoilt {
    // The first `lent` bytes, as they are.
    fn shorter(lent: usize) -> Spoilt {
        Spoilt { lent, place: None }
    }

    // Adds to the byte, mod 256; nothing past the end.
    pub fn add(self, card: &mut [u8], n: u8) {
        if let Some(place) = self.place
            && let Some(b) = card.get_mut(place)
        {
            *b = b.wrapping_add(n);
        }
    }

    // Takes what was added from it again.
    pub fn mend(self, card: &mut [u8], n: u8) {
        self.add(card, 0u8.wrapping_sub(n));
    }
}
