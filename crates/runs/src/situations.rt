// Five cards, and on each all calls with all their arguments (R8, R9).
ghost use Rattle.std.specs.Prelude.{◌≡◌, ◌≤◌, length};

use crate::calls::{Call, Op};
use crate::damage::{Damage, Spoilt};
use crate::kinds::HEAD;
use crate::stage::Stage;
use dice::sums::times;
use std::io;

// What the arguments are; a call that does not take one has the first, which is 0.
const NAMES: [usize; 6] = [0, 259, 255, 256, 257, 258];

const PLACES: [usize; 5] = [0, 1, 2, 6, usize::MAX];

const LENGTHS: [usize; 4] = [0, 63, 64, 100000];

impl Op {
    fn names(self) -> &'static [usize] {
        match self {
            Op::Format | Op::Check | Op::Room | Op::List => &NAMES[..1],
            _ => &NAMES,
        }
    }

    fn places(self) -> &'static [usize]
        ensures { (1 ≤ length result.now) × (length result.now ≤ 5) }
    {
        match self {
            Op::Format | Op::Write | Op::Read | Op::Truncate | Op::List => &PLACES,
            _ => &PLACES[..1],
        }
    }

    fn lengths(self) -> &'static [usize]
        ensures { (1 ≤ length result.now) × (length result.now ≤ 4) }
    {
        match self {
            Op::Write | Op::Read | Op::List => &LENGTHS,
            _ => &LENGTHS[..1],
        }
    }
}

// The shift of all five cards, and the bytes of their blocks.
const SHIFT: usize = 6;

const BLOCK: usize = 64;

// How many blocks a card has, how many names, how many of them with one byte, and its own damage; none where it is given all.
#[derive(Clone, Copy)]
struct Situation {
    blocks: usize,
    made: usize,
    ones: usize,
    own: Option<Damage>,
}

impl Situation {
    const ALL: [Situation; 5] = [
        Situation {
            blocks: 2,
            made: 0,
            ones: 0,
            own: Some(Damage::TableDescriptor),
        },
        Situation {
            blocks: 60,
            made: 3,
            ones: 1,
            own: None,
        },
        Situation {
            blocks: 6,
            made: 3,
            ones: 3,
            own: Some(Damage::RootTop),
        },
        Situation {
            blocks: 280,
            made: 255,
            ones: 1,
            own: Some(Damage::FirstFree),
        },
        Situation {
            blocks: 280,
            made: 255,
            ones: 8,
            own: Some(Damage::FirstEntry),
        },
    ];

    // Whether the card is tried with a damage.
    fn is_given(self, damage: Damage) -> bool {
        match self.own {
            Some(own) => damage == Damage::Nothing || damage == own,
            None => damage != Damage::AnyByte,
        }
    }
}

impl<'a, R: Print> Stage<'a, R> {
    // A call with all its arguments, each time on the card as it was kept, damaged: the name changes slowest, the length fastest.
    fn turns(&mut self, card: &mut [u8], kept: &[u8], spoilt: Spoilt, op: Op) -> io::Result<()>
        requires { length kept.now ≡ length card.old }
    {
        for &name in op.names() {
            for &place in op.places() {
                for &length in op.lengths() {
                    let call = Call {
                        op,
                        name,
                        place,
                        length,
                        from: 0,
                    };
                    card.copy_from_slice(kept);
                    spoilt.add(card, 1);
                    self.show_on(card, spoilt.lent, call)?;
                }
            }
        }
        Ok(())
    }

    // The card is made and kept; then all is tried on it.
    fn try_all(&mut self, card: &mut [u8], situation: Situation) -> io::Result<()> {
        self.begin(card, SHIFT, situation.made)?;
        self.write_ones(card, situation.ones)?;
        let kept = Vec::from_slice(self.alloc, &*card)?;
        for damage in Damage::ALL {
            if situation.is_given(damage) {
                let spoilt = damage.at(card.len(), BLOCK, 0);
                for op in Op::ALL {
                    self.turns(card, &kept, spoilt, op)?;
                }
            }
        }
        Ok(())
    }
}

// All five, on the first bytes of the row.
pub fn situations<R: Print>(stage: &mut Stage<R>, row: &mut [u8]) -> io::Result<()> {
    for situation in Situation::ALL {
        let len = (HEAD + times(situation.blocks, BLOCK)).min(row.len());
        stage.try_all(&mut row[..len], situation)?;
    }
    Ok(())
}
