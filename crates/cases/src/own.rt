// Rule 4 broken: the table's own descriptor, in the header, and its pyramid.
use crate::damage::Damage;
use crate::slots::Slot;
use samples::card::Card;
use samples::draws::{Draws, Span, Value};
use samples::kinds::Kind;
use samples::owners::Owner;
use samples::parts::Part;
use samples::plan::{BEFORE_DESCRIPTORS, DESCRIPTOR, offset};
use samples::wrong::{TWO_32, TWO_63};

pub enum Own {
    // The size is so much more.
    Larger(&'static [Value]),
    OneLess,
    // So much more, and less than a descriptor.
    Between(&'static [Value]),
    // The size is that of a table of so many descriptors.
    Of(&'static [Value]),
    OfMore(&'static [Value]),
    OfNone,
    // There is no room for the first offset.
    Tiny,
    Flags,
    Reserved,
    // More data blocks than the card has blocks, or as many, and a pyramid over them.
    AboveCount,
    PyramidAboveCount,
    Top,
    Slot(Slot),
}

pub const OWN: [(&str, Own); 18] = [
    ("table-size-one-more", Own::Larger(&[Value::Is(1)])),
    ("table-size-one-less", Own::OneLess),
    ("table-size-between", Own::Between(&[Value::Drawn(2, 22)])),
    (
        "table-size-high-bits",
        Own::Larger(&[Value::Is(TWO_32), Value::Is(TWO_63)]),
    ),
    ("table-of-none", Own::OfNone),
    ("table-below-8", Own::Tiny),
    ("table-of-257", Own::Of(&[Value::Is(257)])),
    ("table-of-more", Own::OfMore(&[Value::Drawn(258, 60)])),
    ("table-flags", Own::Flags),
    ("table-reserved", Own::Reserved),
    ("table-above-count", Own::AboveCount),
    ("table-pyramid-above-count", Own::PyramidAboveCount),
    ("table-top-out-of-range", Own::Top),
    ("table-slot-out-of-range", Own::Slot(Slot::Out)),
    ("table-deep-slot-out-of-range", Own::Slot(Slot::DeepOut)),
    ("table-block-twice", Own::Slot(Slot::Twice)),
    ("table-top-below-itself", Own::Slot(Slot::Top)),
    ("table-deep-twice", Own::Slot(Slot::DeepTwice)),
];

// The rows of the table's pyramid that deep damage goes to.
const DEEP_ROWS: usize = 2;

// A field of the table's descriptor.
fn put_own(card: &mut Card, part: Part, v: u64) -> Option<()> {
    card.put_part(Owner::Table, part, v)
}

// Its size and reserved.
fn put_sized(card: &mut Card, size: u32, reserved: u32) -> Option<()> {
    put_own(card, Part::Size, u64::from(size))?;
    put_own(card, Part::Reserved, u64::from(reserved))
}

// A size below 8, with a block but for size 0.
fn put_tiny(card: &mut Card) -> Option<()> {
    let size = card.plan.draws.turn_of(&[0, 1, 2, 3, 4, 5, 6, 7])?;
    let z = u32::from(card.image.block.bytes());
    put_sized(card, size, if size == 0 { 0 } else { z })
}

// The descriptors of the largest table whose contents fit in so many bytes.
fn largest_table(bytes: u32) -> Option<u16> {
    u16::try_from(bytes.checked_sub(BEFORE_DESCRIPTORS)? / DESCRIPTOR).ok()
}

// A table whose contents have all the card's blocks, or a descriptor and a block more.
fn put_huge(card: &mut Card, more: u16) -> Option<()> {
    let z = u32::from(card.image.block.bytes());
    let n = largest_table(u32::from(card.count) * z)?.checked_add(more)?;
    let blocks = card.count.checked_add(more)?;
    put_sized(card, offset(n), u32::from(blocks) * z)
}

impl Damage for Own {
    fn kind(&self, _draws: &Draws) -> Option<Kind> {
        match self {
            Own::Of(_) | Own::OfMore(_) => Some(Kind::ManyStreams),
            Own::Slot(slot) if slot.is_deep() => Some(Kind::ManyStreams),
            _ => Some(Kind::Rich),
        }
    }

    fn shifts(&self, kind: Kind) -> Span {
        match self {
            Own::Between(_) => Span(9, 4),
            Own::OfMore(_) => Span(12, 1),
            Own::AboveCount | Own::PyramidAboveCount => Span(6, 1),
            Own::Slot(slot) if slot.is_deep() => Span(6, 1),
            Own::Slot(_) => Span(6, 2),
            _ => kind.shifts(),
        }
    }

    fn damage(&self, card: &mut Card) -> Option<()> {
        let table = &card.plan.streams.table;
        let size = u64::from(table.size);
        let z = card.image.block.bytes();
        match self {
            Own::Larger(values) | Own::Between(values) => {
                let more = card.plan.draws.value_of(values)?;
                put_own(card, Part::Size, size.checked_add(more)?)
            }
            Own::OneLess => put_own(card, Part::Size, size.checked_sub(1)?),
            Own::Of(values) | Own::OfMore(values) => {
                let n = card.plan.draws.value_of(values)?;
                let size = offset(u16::try_from(n).ok()?);
                put_own(card, Part::Size, u64::from(size))
            }
            Own::OfNone => put_sized(card, offset(0), u32::from(z)),
            Own::Tiny => put_tiny(card),
            Own::Flags => {
                let v = card.plan.draws.wrong_flags()?;
                put_own(card, Part::Flags, v)
            }
            Own::Reserved => {
                let right = table.reserved(card.image.block);
                let v = card.plan.draws.wrong_reserved(right, z)?;
                put_own(card, Part::Reserved, v)
            }
            Own::AboveCount => put_huge(card, 1),
            Own::PyramidAboveCount => put_huge(card, 0),
            Own::Top => {
                let v = card
                    .plan
                    .draws
                    .wrong_block_or_none(table.top(), card.count)?;
                put_own(card, Part::Top, v)
            }
            Own::Slot(slot) => slot.damage(card, Owner::Table, DEEP_ROWS),
        }
    }
}
