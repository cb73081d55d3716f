// How many of a card's blocks are free.
ghost use Rattle.std.specs.Prelude.{◌≡◌, IfSome};
ghost use Rattle.samples.specs.Counts.{counted};

// The most blocks of a card.
const MOST_BLOCKS: u32 = 4096;

#[derive(Clone, Copy)]
pub enum Free {
    Drawn(u32),
    // As many as drawn, or one more where the card would have an odd number of blocks.
    Even(u32),
    // All that a card can have.
    Most,
}

impl Free {
    // The same, but for an odd number of blocks.
    pub fn made_even(self) -> Free {
        match self {
            Free::Drawn(q) => Free::Even(q),
            other => other,
        }
    }

    // The blocks of a card of which so many are used.
    pub fn count(self, used: u32) -> Option<u32>
        ensures { IfSome result (λ n. n ≡ counted self used) }
    {
        match self {
            Free::Drawn(q) => used.checked_add(q),
            Free::Even(q) => {
                let count = used.checked_add(q)?;
                count.checked_add(count % 2)
            }
            Free::Most => Some(MOST_BLOCKS),
        }
    }
}
