// Rules 1 and 3 broken: the card's length, and s, by which it makes whole blocks.
use crate::damage::Damage;
use samples::card::Card;
use samples::draws::{Draws, Span, Value};
use samples::kinds::Kind;
use samples::parts::SHIFT;
use samples::plan::Plan;
use samples::sizes::HEADER;

// A card shorter than a header: its length.
pub struct Short(&'static [Value]);

pub const SHORT: [(&str, Short); 1] = [(
    "short",
    Short(&[
        Value::Is(86),
        Value::Drawn(0, 86),
        Value::Is(0),
        Value::Is(1),
    ]),
)];

impl Damage for Short {
    fn damage(&self, card: &mut Card) -> Option<()> {
        card.image.length = card.plan.draws.value_of(self.0)? as usize;
        Some(())
    }
}

// What is wrong with s or with the number of blocks.
pub enum Misfit {
    // An s below the least one, which the plan has.
    SmallShift(&'static [Value]),
    // An s above the greatest one, which the plan has: the bytes would make whole blocks.
    NextShift(u64),
    LargeShift(&'static [Value]),
    NoBlock,
    LessThanBlock,
    ByteMore,
    ByteLess,
    PartMore,
    BlockAboveMost,
}

pub const MISFITS: [(&str, Misfit); 10] = [
    ("s-one-too-small", Misfit::SmallShift(&[Value::Is(5)])),
    ("s-far-too-small", Misfit::SmallShift(&[Value::Drawn(0, 5)])),
    ("s-one-too-large", Misfit::NextShift(13)),
    (
        "s-far-too-large",
        Misfit::LargeShift(&[
            Value::Is(14),
            Value::Is(38),
            Value::Is(70),
            Value::Is(134),
            Value::Is(255),
        ]),
    ),
    ("no-block", Misfit::NoBlock),
    ("less-than-a-block", Misfit::LessThanBlock),
    ("one-byte-more", Misfit::ByteMore),
    ("one-byte-less", Misfit::ByteLess),
    ("part-of-a-block-more", Misfit::PartMore),
    ("one-block-above-4096", Misfit::BlockAboveMost),
];

// Some bytes of a block, one at least, and not all.
fn part_of_block(card: &mut Card) -> u32 {
    let z = usize::from(card.image.block.bytes());
    1 + card.plan.draws.below(z - 1)
}

impl Damage for Misfit {
    fn kind(&self, _draws: &Draws) -> Option<Kind> {
        match self {
            Misfit::BlockAboveMost => Some(Kind::MostBlocks),
            _ => Some(Kind::Rich),
        }
    }

    fn shifts(&self, kind: Kind) -> Span {
        match self {
            Misfit::SmallShift(_) => Span(6, 1),
            Misfit::NextShift(_) => Span(12, 1),
            _ => kind.shifts(),
        }
    }

    fn change(&self, plan: &mut Plan) -> Option<()> {
        if let Misfit::NextShift(_) = self {
            plan.free = plan.free.made_even();
        }
        Some(())
    }

    fn damage(&self, card: &mut Card) -> Option<()> {
        let length = card.image.length;
        let z = usize::from(card.image.block.bytes());
        let header = HEADER as usize;
        card.image.length = match self {
            Misfit::SmallShift(values) | Misfit::LargeShift(values) => {
                let s = card.plan.draws.value_of(values)?;
                return card.image.put(SHIFT, s);
            }
            Misfit::NextShift(s) => return card.image.put(SHIFT, *s),
            Misfit::NoBlock => header,
            Misfit::LessThanBlock => header + part_of_block(card) as usize,
            Misfit::ByteMore => length.checked_add(1)?,
            Misfit::ByteLess => length.checked_sub(1)?,
            Misfit::PartMore => length.checked_add(part_of_block(card) as usize)?,
            Misfit::BlockAboveMost => length.checked_add(z)?,
        };
        Some(())
    }
}
