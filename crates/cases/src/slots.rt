// Slots of a pyramid made wrong: rules 4 and 6 share these.
use samples::card::Card;
use samples::image::Field;
use samples::owners::Owner;

pub enum Slot {
    // A slot above the data names no block of the card.
    Out,
    // So does one above one of the lowest rows.
    DeepOut,
    // A data block stands in its neighbour's slot too.
    Twice,
    // The top stands below itself.
    Top,
    // A slot above one of the lowest rows names another block of its row.
    DeepTwice,
}

// Draws one of the lowest `rows` rows.
fn any_row(card: &mut Card, rows: usize) -> usize {
    card.plan.draws.below(rows) as usize
}

// The row's length and a number below that.
fn any_in_row(card: &mut Card, owner: Owner, t: usize) -> Option<(usize, usize)> {
    let width = card.plan.streams.of(owner)?.row(t)?.len();
    Some((width, card.plan.draws.below(width) as usize))
}

// The slot of block `j` of row `t` names no block of the card.
fn slot_out(card: &mut Card, owner: Owner, t: usize, j: usize) -> Option<()> {
    let stream = card.plan.streams.of(owner)?;
    let right = *stream.row(t)?.get(j)?;
    let wrong = card.plan.draws.wrong_slot(right, card.count)?;
    let slot = card.image.slot(stream, t, j)?;
    card.image.put(slot, wrong)
}

// The slot of block `j` of row `t` names the block that stands `step` blocks after it, or round the row's end.
fn slot_moved(card: &mut Card, owner: Owner, t: usize, j: usize, step: usize) -> Option<()> {
    let stream = card.plan.streams.of(owner)?;
    let row = stream.row(t)?;
    let other = *row.get(j.checked_add(step)?.checked_rem(row.len())?)?;
    let slot = card.image.slot(stream, t, j)?;
    card.image.put(slot, u64::from(other))
}

// A slot above the data, drawn.
pub fn any_slot(card: &mut Card, owner: Owner) -> Option<Field> {
    let (_, j) = any_in_row(card, owner, 0)?;
    card.image.slot(card.plan.streams.of(owner)?, 0, j)
}

impl Slot {
    // A deep one takes a row, and wants a card that has more than one.
    pub fn is_deep(&self) -> bool {
        matches!(self, Slot::DeepOut | Slot::DeepTwice)
    }

    // Makes a slot of an owner wrong, of the lowest `rows` rows where it is a deep one.
    pub fn damage(&self, card: &mut Card, owner: Owner, rows: usize) -> Option<()> {
        let t = if self.is_deep() {
            any_row(card, rows)
        } else {
            0
        };
        let (width, j) = any_in_row(card, owner, t)?;
        match self {
            Slot::Out | Slot::DeepOut => slot_out(card, owner, t, j),
            Slot::Twice => slot_moved(card, owner, t, j, 1),
            Slot::DeepTwice => {
                let y = card.plan.draws.below(width.checked_sub(1)?) as usize;
                slot_moved(card, owner, t, j, 1 + y)
            }
            Slot::Top => {
                let stream = card.plan.streams.of(owner)?;
                let slot = card.image.slot(stream, t, j)?;
                card.image.put(slot, u64::from(stream.top()))
            }
        }
    }
}
