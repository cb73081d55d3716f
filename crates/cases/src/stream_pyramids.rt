// Rule 6 broken: the streams' pyramids.
use crate::damage::Damage;
use crate::slots::{Slot, any_slot};
use samples::card::Card;
use samples::draws::{Draws, Span};
use samples::kinds::Kind;
use samples::owners::{LONG, Owner, SHORT};
use samples::parts::Part;

pub enum Pyramids {
    Top,
    // Of the long stream.
    Slot(Slot),
    // The top of the first is a block of the second.
    TopShared(Owner, Owner),
    // A slot of the long stream names a block of the root.
    SlotShared,
    // As many data blocks as the card has blocks, and redirectors beyond.
    AboveCount,
}

pub const PYRAMIDS: [(&str, Pyramids); 11] = [
    ("top-out-of-range", Pyramids::Top),
    ("slot-out-of-range", Pyramids::Slot(Slot::Out)),
    ("deep-slot-out-of-range", Pyramids::Slot(Slot::DeepOut)),
    ("twice-in-one", Pyramids::Slot(Slot::Twice)),
    ("top-below-itself", Pyramids::Slot(Slot::Top)),
    ("deep-twice", Pyramids::Slot(Slot::DeepTwice)),
    ("in-two-streams", Pyramids::TopShared(SHORT, LONG)),
    ("in-stream-and-root", Pyramids::SlotShared),
    (
        "in-stream-and-table",
        Pyramids::TopShared(SHORT, Owner::Table),
    ),
    (
        "in-root-and-table",
        Pyramids::TopShared(Owner::Root, Owner::Table),
    ),
    ("pyramid-above-count", Pyramids::AboveCount),
];

// The rows of a tall and of a taller pyramid that deep damage goes to.
const DEEP_ROWS: Span = Span(2, 2);

// A block of an owner, drawn.
pub fn any_block(card: &mut Card, owner: Owner) -> Option<u16> {
    let stream = card.plan.streams.of(owner)?;
    card.plan.draws.one_of(&stream.blocks)
}

// A top that is no block of the card.
fn top_out(card: &mut Card) -> Option<()> {
    let owner = Owner::live(card.plan.draws.below(3));
    let right = card.plan.streams.of(owner)?.top();
    let v = card.plan.draws.wrong_block(right, card.count)?;
    card.put_part(owner, Part::Top, v)
}

// The top of an owner is a block of another.
fn top_shared(card: &mut Card, owner: Owner, other: Owner) -> Option<()> {
    let b = any_block(card, other)?;
    card.put_part(owner, Part::Top, u64::from(b))
}

// A slot of the long stream names a block of the root.
fn slot_shared(card: &mut Card) -> Option<()> {
    let slot = any_slot(card, LONG)?;
    let b = any_block(card, Owner::Root)?;
    card.image.put(slot, u64::from(b))
}

fn above_count(card: &mut Card) -> Option<()> {
    let v = u64::from(card.count) * u64::from(card.image.block.bytes());
    card.put_part(LONG, Part::Size, v)?;
    card.put_part(LONG, Part::Reserved, v)
}

impl Damage for Pyramids {
    fn kind(&self, draws: &Draws) -> Option<Kind> {
        match self {
            Pyramids::Slot(slot) if slot.is_deep() => draws.turn_of(&[Kind::Tall, Kind::Taller]),
            _ => Some(Kind::Rich),
        }
    }

    fn damage(&self, card: &mut Card) -> Option<()> {
        match self {
            Pyramids::Top => top_out(card),
            Pyramids::Slot(slot) => {
                let rows = card.plan.draws.turn_in(DEEP_ROWS)?;
                slot.damage(card, LONG, rows)
            }
            Pyramids::TopShared(owner, other) => top_shared(card, *owner, *other),
            Pyramids::SlotShared => slot_shared(card),
            Pyramids::AboveCount => above_count(card),
        }
    }
}
