// Rule 5 broken: the forms of descriptors, and the chain of the free ones.
use crate::damage::Damage;
use crate::forms::{Form, any_spare};
use samples::card::Card;
use samples::draws::Draws;
use samples::kinds::Kind;
use samples::owners::{Desc, Owner, SHORT};
use samples::parts::{NO_OFFSET, Part};
use samples::plan::{Plan, offset};
use samples::wrong::{FF4, FF8};

pub enum Descriptors {
    Form(Form),
    // Offsets that lead to no descriptor: the first one, that of the last spare, that of the first spare.
    FirstWrong,
    LastWrong,
    NextWrong,
    // The chain leads to a live descriptor, whose size leads on to a spare: to the first or to the second one.
    Live(usize),
    // The last spare leads back to a spare; a spare leads to itself.
    Twice,
    Itself,
    // Spares are left out: the first one, the next ones, all.
    FirstSkipped,
    NextSkipped,
    NoneOnChain,
    // A named stream in free form.
    FreeOffChain,
    // The root in free form, on the chain.
    RootFree,
    // A first offset where no descriptor is free.
    NoneFree,
}

pub const DESCRIPTORS: [(&str, Descriptors); 23] = [
    ("free-reserved", Descriptors::Form(Form::FreeReserved)),
    ("free-flags", Descriptors::Form(Form::FreeFlags)),
    ("live-flags", Descriptors::Form(Form::LiveFlags)),
    ("live-reserved", Descriptors::Form(Form::LiveReserved)),
    ("empty-reserved", Descriptors::Form(Form::EmptyReserved)),
    ("size-above-reserved", Descriptors::Form(Form::SizeAbove)),
    (
        "size-a-block-below-reserved",
        Descriptors::Form(Form::SizeBelow),
    ),
    (
        "size-near-the-end-of-numbers",
        Descriptors::Form(Form::SizeNearEnd),
    ),
    ("empty-top", Descriptors::Form(Form::EmptyTop)),
    ("above-count", Descriptors::Form(Form::AboveCount)),
    ("first-offset-wrong", Descriptors::FirstWrong),
    ("last-offset-wrong", Descriptors::LastWrong),
    ("next-offset-wrong", Descriptors::NextWrong),
    ("live-on-chain", Descriptors::Live(0)),
    ("live-for-free-on-chain", Descriptors::Live(1)),
    ("descriptor-met-twice", Descriptors::Twice),
    ("descriptor-next-is-itself", Descriptors::Itself),
    ("first-free-skipped", Descriptors::FirstSkipped),
    ("next-free-skipped", Descriptors::NextSkipped),
    ("none-on-chain", Descriptors::NoneOnChain),
    ("free-off-chain", Descriptors::FreeOffChain),
    ("root-free", Descriptors::RootFree),
    ("none-free-first-offset-wrong", Descriptors::NoneFree),
];

// F(j).
fn spare_offset(plan: &Plan, j: usize) -> Option<u32> {
    Some(offset(*plan.spares.get(j)?))
}

// What a spare leads to.
fn put_next(card: &mut Card, spare: u16, next: u64) -> Option<()> {
    card.put_spare(spare, Part::Size, next)
}

// The first offset leads to the descriptor of an owner.
fn put_first(card: &mut Card, owner: Owner) -> Option<()> {
    match card.desc(owner)? {
        Desc::Header => None,
        Desc::Table(k) => card.put_first_offset(u64::from(offset(k))),
    }
}

// An offset that is wrong where F(j) is right.
fn wrong_offset(card: &Card, j: usize) -> Option<u64> {
    let right = spare_offset(&card.plan, j)?;
    let end = offset(card.plan.descriptors);
    card.plan.draws.wrong_offset(right, end)
}

// The last spare leads to no descriptor.
fn last_wrong(card: &mut Card) -> Option<()> {
    let last = *card.plan.spares.last()?;
    let first = u64::from(spare_offset(&card.plan, 0)?);
    let end = u64::from(offset(card.plan.descriptors));
    let v = card.plan.draws.turn_of(&[end, 0, FF4, FF8 - 1, first + 1])?;
    put_next(card, last, v)
}

// The spare after the first is skipped, or all that are left.
fn skip_next(card: &mut Card) -> Option<()> {
    let first = *card.plan.spares.first()?;
    let third = u64::from(spare_offset(&card.plan, 2)?);
    let v = card.plan.draws.turn_of(&[third, NO_OFFSET])?;
    put_next(card, first, v)
}

// A first offset where no descriptor is free.
fn none_free(card: &mut Card) -> Option<()> {
    let end = u64::from(offset(card.plan.descriptors));
    let v = card.plan.draws.turn_of(&[FF4, 0, end, FF8 - 1])?;
    card.put_first_offset(v)
}

// A named stream in free form, off the chain.
fn free_off_chain(card: &mut Card) -> Option<()> {
    let e = card.plan.draws.below(card.plan.streams.named.len()) as usize;
    card.put_desc(Owner::Named(e), NO_OFFSET, NO_OFFSET, 0)
}

// The root in free form, on the chain.
fn free_root(card: &mut Card) -> Option<()> {
    let next = spare_offset(&card.plan, 0)?;
    card.put_desc(Owner::Root, u64::from(next), NO_OFFSET, 0)?;
    put_first(card, Owner::Root)
}

impl Damage for Descriptors {
    fn kind(&self, _draws: &Draws) -> Option<Kind> {
        match self {
            Descriptors::NoneFree => Some(Kind::LongNames),
            _ => Some(Kind::Rich),
        }
    }

    fn change(&self, plan: &mut Plan) -> Option<()> {
        if let Descriptors::Live(j) = self {
            let size = spare_offset(plan, *j)?;
            plan.streams.of_mut(SHORT)?.size = size;
        }
        Some(())
    }

    fn damage(&self, card: &mut Card) -> Option<()> {
        match self {
            Descriptors::Form(form) => form.damage(card),
            Descriptors::FirstWrong => {
                let v = wrong_offset(card, 0)?;
                card.put_first_offset(v)
            }
            Descriptors::LastWrong => last_wrong(card),
            Descriptors::NextWrong => {
                let first = *card.plan.spares.first()?;
                let v = wrong_offset(card, 1)?;
                put_next(card, first, v)
            }
            Descriptors::Live(_) => put_first(card, SHORT),
            Descriptors::Twice => {
                let last = *card.plan.spares.last()?;
                let k = any_spare(card)?;
                put_next(card, last, u64::from(offset(k)))
            }
            Descriptors::Itself => {
                let k = any_spare(card)?;
                put_next(card, k, u64::from(offset(k)))
            }
            Descriptors::FirstSkipped => {
                let second = spare_offset(&card.plan, 1)?;
                card.put_first_offset(u64::from(second))
            }
            Descriptors::NextSkipped => skip_next(card),
            Descriptors::NoneOnChain => card.put_first_offset(NO_OFFSET),
            Descriptors::FreeOffChain => free_off_chain(card),
            Descriptors::RootFree => free_root(card),
            Descriptors::NoneFree => none_free(card),
        }
    }
}
