// Rule 5 broken: the forms of descriptors.
use samples::card::Card;
use samples::owners::{EMPTY, LONG, Owner};
use samples::parts::Part;
use samples::wrong::{FF4, FF8, TWO_32, TWO_63};

pub enum Form {
    FreeReserved,
    FreeFlags,
    LiveFlags,
    LiveReserved,
    EmptyReserved,
    // The size of a long stream is a byte more than its blocks have, or less by a block.
    SizeAbove,
    SizeBelow,
    // So large that its blocks can't be counted.
    SizeNearEnd,
    EmptyTop,
    // More data blocks than the card has blocks.
    AboveCount,
}

// A free descriptor, drawn.
pub fn any_spare(card: &mut Card) -> Option<u16> {
    card.plan.draws.one_of(&card.plan.spares)
}

// The root or a named stream, one of the first `n`.
fn any_live(card: &mut Card, n: usize) -> Owner {
    Owner::live(card.plan.draws.below(n))
}

// Reserved of the root or of the first named stream.
fn put_reserved(card: &mut Card) -> Option<()> {
    let owner = any_live(card, 2);
    let block = card.image.block;
    let right = card.plan.streams.of(owner)?.reserved(block);
    let v = card.plan.draws.wrong_reserved(right, block.bytes())?;
    card.put_part(owner, Part::Reserved, v)
}

// Reserved by a block more than the card has, and a size that fills the last of these or begins it.
fn above_count(card: &mut Card) -> Option<()> {
    let owner = any_live(card, 2);
    let z = u64::from(card.image.block.bytes());
    let v = (u64::from(card.count) + 1) * z;
    let size = card.plan.draws.turn_of(&[v, v - (z - 1)])?;
    card.put_part(owner, Part::Reserved, v)?;
    card.put_part(owner, Part::Size, size)
}

// Reserved of the long stream.
fn long_reserved(card: &Card) -> Option<u32> {
    Some(card.plan.streams.of(LONG)?.reserved(card.image.block))
}

impl Form {
    pub fn damage(&self, card: &mut Card) -> Option<()> {
        let z = card.image.block.bytes();
        let draws = &mut card.plan.draws;
        match self {
            Form::FreeReserved => {
                let k = any_spare(card)?;
                let v = card.plan.draws.not_zero(z)?;
                card.put_spare(k, Part::Reserved, v)
            }
            Form::FreeFlags => {
                let k = any_spare(card)?;
                let v = card.plan.draws.wrong_flags()?;
                card.put_spare(k, Part::Flags, v)
            }
            Form::LiveFlags => {
                let others = card.plan.streams.named.len();
                let owner = any_live(card, 1 + others);
                let v = card.plan.draws.wrong_flags()?;
                card.put_part(owner, Part::Flags, v)
            }
            Form::LiveReserved => put_reserved(card),
            Form::EmptyReserved => {
                let v = draws.not_zero(z)?;
                card.put_part(EMPTY, Part::Reserved, v)
            }
            Form::SizeAbove => {
                let v = u64::from(long_reserved(card)?) + 1;
                card.put_part(LONG, Part::Size, v)
            }
            Form::SizeBelow => {
                let v = long_reserved(card)?.checked_sub(u32::from(z))?;
                card.put_part(LONG, Part::Size, u64::from(v))
            }
            Form::SizeNearEnd => {
                let less = draws.below(usize::from(z) - 1);
                card.put_part(EMPTY, Part::Size, FF8 - u64::from(less))
            }
            Form::EmptyTop => {
                let v = draws.turn_of(&[1, FF4, TWO_32, TWO_63, FF8 - 1])?;
                card.put_part(EMPTY, Part::Top, v)
            }
            Form::AboveCount => above_count(card),
        }
    }
}
