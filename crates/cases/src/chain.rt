// Rule 7 broken: the free chain, and blocks that nobody has.
use crate::damage::Damage;
use crate::stream_pyramids::any_block;
use samples::card::Card;
use samples::draws::Draws;
use samples::kinds::Kind;
use samples::owners::{LONG, Owner};
use samples::parts::{NO_BLOCK, NO_OFFSET, Part};
use samples::wrong::{FF4, FF8, TWO_63};

pub enum Chain {
    // The first block, the link of the last one and that of the first one are no blocks of the card.
    FirstOut,
    LastLinkOut,
    NextLinkOut,
    // The first block of a card that has no free one.
    FullFirst,
    // The last block leads back to one of the chain; a block leads to itself.
    Twice,
    Itself,
    // A data block of the long stream is on the chain.
    Used(Place),
    // The last block leads to the long stream's top, or to a block of an owner.
    Redirector,
    BlockOf(Owner),
    EndsEarly,
    NoChain,
    StartsLate,
    OneSkipped,
    // The long stream gives up all its blocks, or its last data block.
    StreamLetGo,
    DataLetGo,
    // The card has one block more.
    BlockOfNobody,
}

pub enum Place {
    End,
    Head,
    // That of the second block.
    Second,
}

pub const CHAIN: [(&str, Chain); 19] = [
    ("first-block-out-of-range", Chain::FirstOut),
    ("full-first-block-wrong", Chain::FullFirst),
    ("last-link-out-of-range", Chain::LastLinkOut),
    ("next-link-out-of-range", Chain::NextLinkOut),
    ("block-met-twice", Chain::Twice),
    ("next-is-itself", Chain::Itself),
    ("used-block-at-the-end", Chain::Used(Place::End)),
    ("used-block-at-the-head", Chain::Used(Place::Head)),
    ("used-for-free", Chain::Used(Place::Second)),
    ("redirector-on-chain", Chain::Redirector),
    ("table-on-chain", Chain::BlockOf(Owner::Table)),
    ("root-on-chain", Chain::BlockOf(Owner::Root)),
    ("ends-early", Chain::EndsEarly),
    ("no-chain", Chain::NoChain),
    ("starts-late", Chain::StartsLate),
    ("one-skipped", Chain::OneSkipped),
    ("stream-let-go", Chain::StreamLetGo),
    ("data-block-let-go", Chain::DataLetGo),
    ("block-of-nobody", Chain::BlockOfNobody),
];

// Block `j` of the chain.
fn free(card: &Card, j: usize) -> Option<u16> {
    card.chain.get(j).copied()
}

// A block of the chain, drawn.
fn any_free(card: &mut Card) -> Option<u16> {
    card.plan.draws.one_of(&card.chain)
}

// A block of the chain leads to another.
fn put_next(card: &mut Card, block: u16, next: u16) -> Option<()> {
    card.image.put_link(block, u64::from(next))
}

// The last block leads to another.
fn put_after_last(card: &mut Card, next: u16) -> Option<()> {
    let last = *card.chain.last()?;
    put_next(card, last, next)
}

// The first block.
fn put_head(card: &mut Card, block: u16) -> Option<()> {
    card.put_first_free(u64::from(block))
}

fn first_out(card: &mut Card) -> Option<()> {
    let v = card.plan.draws.wrong_block(free(card, 0)?, card.count)?;
    card.put_first_free(v)
}

fn full_first(card: &mut Card) -> Option<()> {
    let count = u64::from(card.count);
    let v = card.plan.draws.turn_of(&[FF4, count, FF8 - 1, TWO_63 - 1])?;
    card.put_first_free(v)
}

// The link of a block, where another one would be right.
fn link_out(card: &mut Card, block: u16, right: u16) -> Option<()> {
    let v = card.plan.draws.wrong_link(right, card.count)?;
    card.image.put_link(block, v)
}

// The chain ends at one of its blocks, but for the last.
fn ends_early(card: &mut Card) -> Option<()> {
    let (_, others) = card.chain.split_last()?;
    let b = card.plan.draws.one_of(others)?;
    card.image.put_link(b, NO_BLOCK)
}

// A data block of the long stream, drawn.
fn any_data(card: &mut Card) -> Option<u16> {
    let stream = card.plan.streams.of(LONG)?;
    card.plan.draws.one_of(stream.data_blocks()?)
}

// The long stream gives up its last data block.
fn data_let_go(card: &mut Card) -> Option<()> {
    let stream = card.plan.streams.of(LONG)?;
    let (_, left) = stream.data_blocks()?.split_last()?;
    let only = match left {
        [b] => Some(*b),
        _ => None,
    };
    let v = left
        .len()
        .checked_mul(usize::from(card.image.block.bytes()))? as u64;
    card.put_part(LONG, Part::Size, v)?;
    card.put_part(LONG, Part::Reserved, v)?;
    if let Some(top) = only {
        card.put_part(LONG, Part::Top, u64::from(top))?;
    }
    Some(())
}

// The card is longer by a block.
fn longer(card: &mut Card) -> Option<()> {
    let z = usize::from(card.image.block.bytes());
    card.image.length = card.image.length.checked_add(z)?;
    Some(())
}

// A data block of the long stream, drawn, is on the chain.
fn used_on_chain(card: &mut Card, place: &Place) -> Option<()> {
    let b = any_data(card)?;
    let first = free(card, 0)?;
    match place {
        Place::End => {
            put_after_last(card, b)?;
            card.image.put_link(b, NO_BLOCK)
        }
        Place::Head => {
            put_head(card, b)?;
            put_next(card, b, first)
        }
        Place::Second => {
            let third = free(card, 2)?;
            put_next(card, first, b)?;
            put_next(card, b, third)
        }
    }
}

impl Damage for Chain {
    fn kind(&self, _draws: &Draws) -> Option<Kind> {
        match self {
            Chain::FullFirst => Some(Kind::Full),
            _ => Some(Kind::Rich),
        }
    }

    fn damage(&self, card: &mut Card) -> Option<()> {
        match self {
            Chain::FirstOut => first_out(card),
            Chain::FullFirst => full_first(card),
            Chain::LastLinkOut => {
                let last = *card.chain.last()?;
                let first = free(card, 0)?;
                link_out(card, last, first)
            }
            Chain::NextLinkOut => {
                let first = free(card, 0)?;
                let second = free(card, 1)?;
                link_out(card, first, second)
            }
            Chain::Twice => {
                let b = any_free(card)?;
                put_after_last(card, b)
            }
            Chain::Itself => {
                let b = any_free(card)?;
                put_next(card, b, b)
            }
            Chain::Used(place) => used_on_chain(card, place),
            Chain::Redirector => {
                let top = card.plan.streams.of(LONG)?.top();
                put_after_last(card, top)
            }
            Chain::BlockOf(owner) => {
                let b = any_block(card, *owner)?;
                put_after_last(card, b)
            }
            Chain::EndsEarly => ends_early(card),
            Chain::NoChain => card.put_first_free(NO_OFFSET),
            Chain::StartsLate => {
                let second = free(card, 1)?;
                put_head(card, second)
            }
            Chain::OneSkipped => {
                let first = free(card, 0)?;
                let third = free(card, 2)?;
                put_next(card, first, third)
            }
            Chain::StreamLetGo => card.put_desc(LONG, 0, 0, 0),
            Chain::DataLetGo => data_let_go(card),
            Chain::BlockOfNobody => longer(card),
        }
    }
}
